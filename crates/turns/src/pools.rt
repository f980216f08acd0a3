// Cells that go between the free list and the tasks' pools. Opposite ways, so the two loops share nothing.
ghost use Rattle.std.specs.Prelude.{◌≡◌, ◌≤◌, IfOk};
ghost use Rattle.rules.specs.Pools.{give_back, reserve};
ghost use Rattle.tasks.specs.Parts.{tasks_of};
ghost use Rattle.turns.specs.Moves.{drawing, reservable_of, returning};
ghost use Rattle.turns.specs.Parts.{FreeBecomes, OnFree};

use super::parts::Control;
use bags::Bag;
use rules::Refusal;
use tasks::Eighth;

impl Control {
    // Fills the pool of task m up to four cells, as far as the free list goes; answers how many came.
    pub fn reserve<F: Bag>(&mut self, free: &mut F, m: usize) -> Result<u16, Refusal>
        ensures answer { OnFree F.Bag (reserve m) free.old free.new self.old self.new result }
        ensures few { IfOk result (λ k. k ≤ 4) }
    {
        let m = self.slot(m)?;
        let wanted = self.reservable(m, free.count())?;
        for _k in 0..wanted {
            self.draw(free, m);
        }
        Ok(wanted as u16)
    }

    // How many cells to draw for task m from a free list of so many.
    fn reservable(&self, m: Eighth, free: usize) -> Result<usize, Refusal>
        ensures checks { result ≡ reservable_of free (tasks_of self.now.tasks m) }
        ensures few { IfOk result (λ k. k ≤ 4) }
    {
        let places = 4 - self.tasks.idle(m)?.pool.len();
        if places == 0 {
            return Err(Refusal::PoolFull);
        }
        if free == 0 {
            return Err(Refusal::FreeListEmpty);
        }
        Ok(places.min(free))
    }

    // One cell, as the free list chooses, into the pool of task m.
    fn draw<F: Bag>(&mut self, free: &mut F, m: Eighth)
        ensures { FreeBecomes F.Bag (drawing m) free.old free.new self.old self.new }
    {
        if let Ok(x) = free.take() {
            self.tasks.add(m, x);
        }
    }

    // Puts the cells of the pool of task m back into the free list, newest first; answers how many they were.
    pub fn give_back<F: Bag>(&mut self, free: &mut F, m: usize) -> Result<u16, Refusal>
        ensures answer { OnFree F.Bag (give_back m) free.old free.new self.old self.new result }
        ensures few { IfOk result (λ k. k ≤ 4) }
    {
        let m = self.slot(m)?;
        let held = self.tasks.idle(m)?.pool.len();
        for _k in 0..held {
            self.return_one(free, m);
        }
        Ok(held as u16)
    }

    // The newest cell of the pool of task m, back into the free list.
    fn return_one<F: Bag>(&mut self, free: &mut F, m: Eighth)
        ensures { FreeBecomes F.Bag (returning m) free.old free.new self.old self.new }
    {
        if let Some(x) = self.tasks.take(m) {
            let _ = free.put(x);
        }
    }
}
