// Tasks that begin and end, and their registers.
ghost use Rattle.rules.specs.Tasks.{enter, leave, point, move, clear, load};
ghost use Rattle.turns.specs.Parts.{OnControl, OnCells};

use super::parts::{Control, link, register};
use cells::CellMemory;
use cellwork::link_of;
use rules::Refusal;
use tasks::Task;

impl Control {
    // Begins a task in slot p.
    pub fn enter(&mut self, p: usize) -> Result<u16, Refusal>
        ensures { OnControl (enter p) self.old self.new result }
    {
        let p = self.slot(p)?;
        if self.tasks.get(p).is_some() {
            return Err(Refusal::SlotTaken);
        }
        self.tasks.put(p, Some(Task::new(self.collector.status)));
        Ok(0)
    }

    // Ends task m.
    pub fn leave(&mut self, m: usize) -> Result<u16, Refusal>
        ensures { OnControl (leave m) self.old self.new result }
    {
        let m = self.slot(m)?;
        if self.tasks.idle(m)?.pool.len() > 0 {
            return Err(Refusal::PoolNotEmpty);
        }
        self.tasks.put(m, None);
        Ok(0)
    }

    // Puts directory cell j into register b of task m.
    pub fn point(&mut self, m: usize, j: u16, b: usize) -> Result<u16, Refusal>
        ensures { OnControl (point m j b) self.old self.new result }
    {
        let m = self.slot(m)?;
        let b = register(b)?;
        if j >= self.directory {
            return Err(Refusal::NoSuchDirectoryCell);
        }
        self.tasks.idle(m)?;
        self.tasks.hold(m, b, Some(j));
        Ok(0)
    }

    // Copies register a of task m into register b.
    pub fn move_register(&mut self, m: usize, a: usize, b: usize) -> Result<u16, Refusal>
        ensures { OnControl (move m a b) self.old self.new result }
    {
        let m = self.slot(m)?;
        let (a, b) = (register(a)?, register(b)?);
        let v = self.tasks.idle(m)?.register(a);
        self.tasks.hold(m, b, v);
        Ok(0)
    }

    // Empties register b of task m.
    pub fn clear_register(&mut self, m: usize, b: usize) -> Result<u16, Refusal>
        ensures { OnControl (clear m b) self.old self.new result }
    {
        let m = self.slot(m)?;
        let b = register(b)?;
        self.tasks.idle(m)?;
        self.tasks.hold(m, b, None);
        Ok(0)
    }

    // Copies link i of the cell in register a of task m into register b.
    pub fn load<M: CellMemory>(
        &mut self,
        memory: &M,
        m: usize,
        a: usize,
        i: usize,
        b: usize,
    ) -> Result<u16, Refusal>
        ensures { OnCells M.CellMemory (load m a i b) memory.now memory.now self.old self.new result }
    {
        let m = self.slot(m)?;
        let (a, b) = (register(a)?, register(b)?);
        let i = link::<M>(i)?;
        let task = self.tasks.idle(m)?;
        let x = task.register(a).ok_or(Refusal::RegisterEmpty)?;
        self.tasks.hold(m, b, link_of(memory, x, i));
        Ok(0)
    }
}
