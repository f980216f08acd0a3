// A symbol memory over what a host lends, and its set up.
ghost use Rattle.std.specs.Prelude.{◌≡◌, OnOk};
ghost use Rattle.rules.specs.Law.{Lawful};
ghost use Rattle.rules.specs.SettingUp.{fit_bags, not_set_up, set_up, set_up_checks};
ghost use Rattle.symbols.specs.Laying.{laying};
ghost use Rattle.symbols.specs.Views.{state_of, Becomes, Does};

use super::parts::Symbols;
use bags::Bag;
use cells::{CellMemory, Colour};
use cellwork::empty_links;
use rules::Refusal;
use turns::Control;

impl<'a, 'b, 'c, M: CellMemory, F: Bag, C: Bag> Symbols<'a, 'b, 'c, M, F, C> {
    // A symbol memory that is not set up yet, and so has no slots; what is lent stays as it is.
    pub fn over(
        memory: &'a mut M,
        free: &'b mut F,
        cache: &'c mut C,
    ) -> Symbols<'a, 'b, 'c, M, F, C>
        ensures state { state_of M.CellMemory F.Bag C.Bag result ≡ not_set_up (M.CellMemory.means memory.old) M.CellMemory.links (F.Bag.means free.old) (C.Bag.means cache.old) }
        ensures memory { result.memory.now ≡ memory.old }
        ensures free { result.free.now ≡ free.old }
        ensures cache { result.cache.now ≡ cache.old }
        ensures lender { result.memory.ghost_name ≡ memory.entry.ghost_name }
        ensures first { result.free.ghost_name ≡ free.entry.ghost_name }
        ensures second { result.cache.ghost_name ≡ cache.entry.ghost_name }
    {
        Symbols {
            memory,
            free,
            cache,
            control: Control::new(0),
        }
    }

    // Begins anew with d directory cells: every other cell free, all links empty, no task. From then on, whatever calls follow, no cell
    // in reach is free, what is out of reach as the collector leaves Rest has been free by its second return, and free list and pools
    // hold each free cell exactly once.
    pub fn set_up(&mut self, d: u16) -> Result<u16, Refusal>
        ensures rule { Does M.CellMemory F.Bag C.Bag (set_up d) self.old self.new result }
        ensures law { OnOk result (Lawful (state_of M.CellMemory F.Bag C.Bag self.new)) }
    {
        self.check_set_up(d)?;
        let n = self.memory.count();
        // A memory has no items to go over, so the cells are laid by their numbers.
        for x in 0..n {
            self.lay(x, d);
        }
        self.control = Control::new(d);
        // The rules give this call the answer 0.
        Ok(0)
    }

    fn check_set_up(&self, d: u16) -> Result<(), Refusal>
        ensures { result ≡ set_up_checks d (state_of M.CellMemory F.Bag C.Bag self.now) }
    {
        let n = self.memory.count();
        if n == 0 || n > 4096 {
            return Err(Refusal::MemorySize);
        }
        if d == 0 || d > 64 || d > n {
            return Err(Refusal::DirectorySize);
        }
        if !self.bags_fit(d) {
            return Err(Refusal::UnfitBags);
        }
        Ok(())
    }

    // Whether the free list has a place for each cell beside d directory cells, the cache has one, and both are empty.
    fn bags_fit(&self, d: u16) -> bool
        ensures { result ≡ fit_bags (state_of M.CellMemory F.Bag C.Bag self.now) d }
    {
        let others = self.memory.count().saturating_sub(d);
        self.free.capacity() >= others as usize
            && self.cache.capacity() > 0
            && self.free.count() == 0
            && self.cache.count() == 0
    }

    // Cell x as it begins beside d directory cells.
    fn lay(&mut self, x: u16, d: u16)
        ensures { Becomes M.CellMemory F.Bag C.Bag (laying (state_of M.CellMemory F.Bag C.Bag self.old) d x) self.old self.new }
    {
        empty_links(self.memory, x);
        if x < d {
            let _ = self.memory.set_colour(x, Colour::White);
        } else {
            let _ = self.memory.set_colour(x, Colour::Blue);
            let _ = self.free.put(x);
        }
    }
}
