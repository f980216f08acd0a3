// A ring of slots of its own: the oldest is given first.
ghost use Rattle.std.specs.Prelude.{◌≡◌, ◌<◌, ◌≤◌, length};
ghost use Rattle.bags.specs.Rounds.{empty_ring, ring_hold, ring_sound, ring_room};

use super::{Bag, BagRefusal};

const SLOTS: usize = 32;

// The `len` members stand from slot `first` on, and slot 0 follows the last one. The array is its own: the library's ring buffer lies on
// the heap, and there is none here.
#[derive(Drop)]
pub struct Ring {
    slots: [u16; SLOTS],
    first: usize,
    len: usize,
    ghost whole: { length slots ≡ ring_room },
    ghost start: { first < ring_room },
    ghost few: { len ≤ ring_room },
}

impl Ring {
    pub fn new() -> Ring
        ensures { ring_hold result.slots result.first result.len ≡ empty_ring }
    {
        Ring {
            slots: [0; SLOTS],
            first: 0,
            len: 0,
        }
    }
}

impl Bag for Ring {
    ghost means = { λ s. ring_hold s.slots s.first s.len };

    ghost sound = { λ s. ring_sound s.slots s.first s.len s.few };

    ghost Spare = { Unit {0} };

    ghost spare = { λ _. tt };

    fn count(&self) -> usize {
        self.len
    }

    fn capacity(&self) -> usize {
        SLOTS
    }

    fn put(&mut self, x: u16) -> Result<(), BagRefusal> {
        // Tested and then indexed, as in `Pile`.
        if self.len >= SLOTS {
            return Err(BagRefusal::Full);
        }
        self.slots[(self.first + self.len) % SLOTS] = x;
        self.len += 1;
        Ok(())
    }

    fn take(&mut self) -> Result<u16, BagRefusal> {
        self.len = self.len.checked_sub(1).ok_or(BagRefusal::Empty)?;
        let oldest = self.slots[self.first];
        self.first = (self.first + 1) % SLOTS;
        Ok(oldest)
    }
}
