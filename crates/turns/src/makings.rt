// Cells that are made. A ticket is here the pair of its slot m and its cell x.
ghost use Rattle.std.specs.Prelude.{◌≡◌};
ghost use Rattle.rules.specs.Makings.{make, fill, finish, scrap};
ghost use Rattle.tasks.specs.Parts.{tasks_of};
ghost use Rattle.turns.specs.Moves.{settled_of};
ghost use Rattle.turns.specs.Parts.{OnControl, OnCells};

use super::parts::{Control, link, register};
use cells::{CellMemory, Colour};
use cellwork::empty_links;
use rules::Refusal;
use tasks::Eighth;

impl Control {
    // Begins to make the cell that the pool of task m had last; answers the cell.
    pub fn make<M: CellMemory>(&mut self, memory: &mut M, m: usize) -> Result<u16, Refusal>
        ensures { OnCells M.CellMemory (make m) memory.old memory.new self.old self.new result }
    {
        let m = self.slot(m)?;
        let x = self.tasks.idle(m)?.pool.newest().ok_or(Refusal::PoolEmpty)?;
        self.tasks.begin_making(m, x);
        let _ = memory.set_colour(x, Colour::Black);
        empty_links(memory, x);
        Ok(x)
    }

    // Link i of the cell that task m is making holds what register a holds.
    pub fn fill<M: CellMemory>(
        &self,
        memory: &mut M,
        m: usize,
        i: usize,
        a: usize,
    ) -> Result<u16, Refusal>
        ensures { OnCells M.CellMemory (fill m i a) memory.old memory.new self.now self.now result }
    {
        let m = self.slot(m)?;
        let a = register(a)?;
        let i = link::<M>(i)?;
        let (task, x, _) = self.tasks.making(m)?;
        let _ = memory.set_link(x, i, task.register(a));
        Ok(0)
    }

    // Ends the making of cell x by task m: register b holds the cell.
    pub fn finish(&mut self, m: usize, x: u16, b: usize) -> Result<u16, Refusal>
        ensures { OnControl (finish m x b) self.old self.new result }
    {
        let m = self.slot(m)?;
        let b = register(b)?;
        if !self.settled(m, x)? {
            return Err(Refusal::NotSettled);
        }
        self.tasks.finish(m, x, b);
        Ok(0)
    }

    // Ends the making of cell x by task m: the cell goes back to the pool.
    pub fn scrap<M: CellMemory>(&mut self, memory: &mut M, m: usize, x: u16) -> Result<u16, Refusal>
        ensures { OnCells M.CellMemory (scrap m x) memory.old memory.new self.old self.new result }
    {
        let m = self.slot(m)?;
        self.settled(m, x)?;
        self.tasks.scrap(m, x);
        let _ = memory.set_colour(x, Colour::Blue);
        Ok(0)
    }

    // Whether cell x, which task m is to be making, is settled.
    fn settled(&self, m: Eighth, x: u16) -> Result<bool, Refusal>
        ensures { result ≡ settled_of (tasks_of self.now.tasks m) x }
    {
        let (_, cell, settled) = self.tasks.making(m)?;
        if cell != x {
            return Err(Refusal::NoSuchMaking);
        }
        Ok(settled)
    }
}
