// The calls of tasks. Each is made by what the symbol memory keeps of its own, on the memory and the bags that it touches. The rules give
// every call a number for an answer, 0 where they name none, and that is what it answers; a yes or no is a `bool`.
ghost use Rattle.rules.specs.Changes.{change, carry_on};
ghost use Rattle.rules.specs.Collecting.{collect};
ghost use Rattle.rules.specs.Handshake.{launch, cooperate};
ghost use Rattle.rules.specs.Pools.{give_back, reserve};
ghost use Rattle.rules.specs.Tasks.{enter, leave, point, move, clear, load};
ghost use Rattle.symbols.specs.Views.{Does};
ghost use Rattle.rules.specs.TurnNumbers.{turn_number};
ghost use Rattle.std.specs.Prelude.{Ok};
ghost use Rattle.turns.specs.YesOrNo.{yes_or_no};

use super::parts::Symbols;
use bags::Bag;
use cells::CellMemory;
use rules::{Refusal, Turn};

impl<'a, 'b, 'c, M: CellMemory, F: Bag, C: Bag> Symbols<'a, 'b, 'c, M, F, C> {
    // Begins a task in slot p.
    pub fn enter(&mut self, p: usize) -> Result<u16, Refusal>
        ensures { Does M.CellMemory F.Bag C.Bag (enter p) self.old self.new result }
    {
        self.control.enter(p)
    }

    // Begins a task in slot p with those registers of task m whose bit of the mask is one; answers how many bits are.
    pub fn launch(&mut self, m: usize, p: usize, mask: u8) -> Result<u16, Refusal>
        ensures { Does M.CellMemory F.Bag C.Bag (launch m p mask) self.old self.new result }
    {
        self.control.launch(m, p, mask)
    }

    // Ends task m.
    pub fn leave(&mut self, m: usize) -> Result<u16, Refusal>
        ensures { Does M.CellMemory F.Bag C.Bag (leave m) self.old self.new result }
    {
        self.control.leave(m)
    }

    // Puts directory cell j into register b of task m.
    pub fn point(&mut self, m: usize, j: u16, b: usize) -> Result<u16, Refusal>
        ensures { Does M.CellMemory F.Bag C.Bag (point m j b) self.old self.new result }
    {
        self.control.point(m, j, b)
    }

    // Copies register a of task m into register b.
    pub fn move_register(&mut self, m: usize, a: usize, b: usize) -> Result<u16, Refusal>
        ensures { Does M.CellMemory F.Bag C.Bag (move m a b) self.old self.new result }
    {
        self.control.move_register(m, a, b)
    }

    // Empties register b of task m.
    pub fn clear_register(&mut self, m: usize, b: usize) -> Result<u16, Refusal>
        ensures { Does M.CellMemory F.Bag C.Bag (clear m b) self.old self.new result }
    {
        self.control.clear_register(m, b)
    }

    // Copies link i of the cell in register a of task m into register b.
    pub fn load(&mut self, m: usize, a: usize, i: usize, b: usize) -> Result<u16, Refusal>
        ensures { Does M.CellMemory F.Bag C.Bag (load m a i b) self.old self.new result }
    {
        self.control.load(self.memory, m, a, i, b)
    }

    // Fills the pool of task m up to four cells, as far as the free list goes; answers how many came.
    pub fn reserve(&mut self, m: usize) -> Result<u16, Refusal>
        ensures { Does M.CellMemory F.Bag C.Bag (reserve m) self.old self.new result }
    {
        self.control.reserve(self.free, m)
    }

    // Puts the cells of the pool of task m back into the free list, newest first; answers how many they were.
    pub fn give_back(&mut self, m: usize) -> Result<u16, Refusal>
        ensures { Does M.CellMemory F.Bag C.Bag (give_back m) self.old self.new result }
    {
        self.control.give_back(self.free, m)
    }

    // Begins to change link i of the cell in register a of task m into what register b holds; a later carry on writes it.
    pub fn change(&mut self, m: usize, a: usize, i: usize, b: usize) -> Result<u16, Refusal>
        ensures { Does M.CellMemory F.Bag C.Bag (change m a i b) self.old self.new result }
    {
        self.control.change(self.memory, m, a, i, b)
    }

    // One more turn of the unfinished work of task m; answers whether a further one is due.
    pub fn carry_on(&mut self, m: usize) -> Result<bool, Refusal>
        ensures { Does M.CellMemory F.Bag C.Bag (carry_on m) self.old self.new (yes_or_no result) }
    {
        self.control.carry_on(self.memory, m)
    }

    // Task m takes the status that the collector asks for; at Sync2 what its registers hold is greyed. Answers whether it replied.
    pub fn cooperate(&mut self, m: usize) -> Result<bool, Refusal>
        ensures { Does M.CellMemory F.Bag C.Bag (cooperate m) self.old self.new (yes_or_no result) }
    {
        self.control.cooperate(self.memory, m)
    }

    // One turn of the collector, which touches at most one cell; before the set up it waits. It is never refused.
    pub fn collect(&mut self) -> Turn
        ensures { Does M.CellMemory F.Bag C.Bag collect self.old self.new (Ok (turn_number result)) }
    {
        collecting::collect(
            self.memory,
            self.free,
            self.cache,
            self.control.directory,
            &self.control.tasks,
            &mut self.control.collector,
        )
    }
}
