// Changes of a link, and the turns that carry a change or a making on.
ghost use Rattle.std.specs.Prelude.{◌≡◌, false};
ghost use Rattle.rules.specs.declared.Work.TheVariants.{Making};
ghost use Rattle.rules.specs.Changes.{change, carry_on, carrying, owed, stepping};
ghost use Rattle.tasks.specs.Parts.{tasks_of};
ghost use Rattle.turns.specs.Parts.{OnCells};
ghost use Rattle.turns.specs.YesOrNo.{one_if, yes_or_no};

use super::parts::{Control, link, register};
use cells::CellMemory;
use cellwork::{first_step, grey, grey_old, link_of, settled_colour, warned};
use rules::{Refusal, Step, Work};
use tasks::Eighth;

impl Control {
    // Begins to change link i of the cell in register a of task m into what register b holds; a later carry on writes it.
    pub fn change<M: CellMemory>(
        &mut self,
        memory: &mut M,
        m: usize,
        a: usize,
        i: usize,
        b: usize,
    ) -> Result<u16, Refusal>
        ensures { OnCells M.CellMemory (change m a i b) memory.old memory.new self.old self.new result }
    {
        let m = self.slot(m)?;
        let (a, b) = (register(a)?, register(b)?);
        let i = link::<M>(i)?;
        let task = self.tasks.idle(m)?;
        let cell = task.register(a).ok_or(Refusal::RegisterEmpty)?;
        let value = task.register(b);
        let old = link_of(memory, cell, i);
        let step = first_step(memory, task.status, self.collector.swept, old);
        grey_old(memory, step, old);
        self.tasks.set_work(
            m,
            Some(Work::Change {
                cell,
                link: i,
                value,
                step,
            }),
        );
        Ok(0)
    }

    // One more turn of the unfinished work of task m; answers whether a further one is due.
    pub fn carry_on<M: CellMemory>(&mut self, memory: &mut M, m: usize) -> Result<bool, Refusal>
        ensures { OnCells M.CellMemory (carry_on m) memory.old memory.new self.old self.new (yes_or_no result) }
    {
        let m = self.slot(m)?;
        match self.owed(m)? {
            Work::Making { cell, .. } => Ok(self.settle(memory, m, cell)),
            Work::Change {
                cell,
                link,
                value,
                step,
            } => Ok(self.take_step(memory, m, cell, link, value, step)),
        }
    }

    // The unfinished work of task m, if a turn of it is due.
    fn owed(&self, m: Eighth) -> Result<Work, Refusal>
        ensures { result ≡ owed (tasks_of self.now.tasks m) }
    {
        match self.tasks.present(m)?.work {
            None | Some(Work::Making { settled: true, .. }) => Err(Refusal::NothingToCarryOn),
            Some(work) => Ok(work),
        }
    }

    // The step that is due of a change of link i of cell x into y. A step is kept from turn to turn, so it is data and no closure.
    fn take_step<M: CellMemory>(
        &mut self,
        memory: &mut M,
        m: Eighth,
        x: u16,
        i: usize,
        y: Option<u16>,
        step: Step,
    ) -> bool
        ensures { OnCells M.CellMemory (λ s. stepping s m x i y step) memory.old memory.new self.old self.new (one_if result) }
    {
        match step {
            Step::Grey => grey(memory, y),
            Step::Warn(old) => {
                self.collector.dirty = warned(old, self.collector.scanned, self.collector.dirty);
            }
            Step::Store => {
                let _ = memory.set_link(x, i, y);
                self.tasks.set_work(m, None);
                return false;
            }
        }
        self.tasks.set_work(
            m,
            Some(Work::Change {
                cell: x,
                link: i,
                value: y,
                step: Step::Store,
            }),
        );
        true
    }

    // Cell x takes the colour that the state of the collector asks for.
    fn settle<M: CellMemory>(&mut self, memory: &mut M, m: Eighth, x: u16) -> bool
        ensures { OnCells M.CellMemory (λ s. carrying s m (Making x false)) memory.old memory.new self.old self.new (one_if result) }
    {
        let colour = settled_colour(self.tasks.status_of(m), self.collector.swept, x);
        let _ = memory.set_colour(x, colour);
        self.tasks.set_work(
            m,
            Some(Work::Making {
                cell: x,
                settled: true,
            }),
        );
        false
    }
}
