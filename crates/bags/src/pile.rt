// A pile in a row of numbers from the host: the newest is given first.
ghost use Rattle.std.specs.Borrow.{GName};
ghost use Rattle.std.specs.Prelude.{◌≡◌, length};
ghost use Rattle.bags.specs.Holding.{put_answer, put_into, take_answer, taken_from};
ghost use Rattle.bags.specs.Stacks.{empty_pile, pile_count, pile_means, pile_sound, row_after_put};

use super::{Bag, BagRefusal};

// The first `len` numbers of the row are the members; a longer `len` is read as the row's length. The row is the host's memory,
// and there is no heap for a `Vec`.
#[derive(Drop)]
pub struct Pile<'a> {
    row: &'a mut [u16],
    len: usize,
}

impl<'a> Pile<'a> {
    // An empty pile over the row, whose numbers stay until they are written over.
    pub fn new(row: &'a mut [u16]) -> Pile<'a>
        ensures value { pile_means result ≡ empty_pile (length row.old) }
        ensures row { result.row.now ≡ row.old }
        ensures loan { result.row.ghost_name ≡ row.entry.ghost_name }
    {
        Pile { row, len: 0 }
    }
}

impl<'a> Bag for Pile<'a> {
    ghost means = { pile_means };

    ghost sound = { pile_sound };

    ghost Spare = { GName };

    ghost spare = { λ s. s.row.ghost_name };

    fn count(&self) -> usize
        ensures members { result ≡ length (pile_means self.now).members }
        ensures exact { result ≡ pile_count self.now.row.now self.now.len }
    {
        self.len.min(self.row.len())
    }

    fn capacity(&self) -> usize {
        self.row.len()
    }

    fn put(&mut self, x: u16) -> Result<(), BagRefusal>
        ensures answer { result ≡ put_answer (pile_means self.old) }
        ensures after { pile_means self.new ≡ put_into (pile_means self.old) x }
        ensures rest { self.new.row.ghost_name ≡ self.old.row.ghost_name }
        ensures exact { self.new.row.now ≡ row_after_put (pile_means self.old) self.old.row.now x }
    {
        let n = self.count();
        // Tested and then indexed: of a row written through `get_mut` the proof knows no number.
        if n >= self.row.len() {
            return Err(BagRefusal::Full);
        }
        self.row[n] = x;
        self.len = n + 1;
        Ok(())
    }

    fn take(&mut self) -> Result<u16, BagRefusal>
        ensures answer { result ≡ take_answer (pile_means self.old) }
        ensures after { pile_means self.new ≡ taken_from (pile_means self.old) }
        ensures rest { self.new.row.ghost_name ≡ self.old.row.ghost_name }
        ensures exact { self.new.row.now ≡ self.old.row.now }
    {
        let top = self.count().checked_sub(1).ok_or(BagRefusal::Empty)?;
        self.len = top;
        Ok(self.row[top])
    }
}
