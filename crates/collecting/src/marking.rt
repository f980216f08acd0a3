// Blackening and tracing.
ghost use Rattle.std.specs.Prelude.{◌≡◌, ◌+◌, ◌<◌, true, Some};
ghost use Rattle.bags.specs.Holding.{has_member, taken_from};
ghost use Rattle.rules.specs.Collecting.{next_hand, with_hand};
ghost use Rattle.collecting.specs.Gathering.{alone};

use bags::Bag;
use cells::{CellMemory, Colour};
use cellwork::{colour_of, link_of, overflowed};
use rules::{Collector, Hand};

// What a turn of Mark or Scan touches.
#[derive(Drop)]
pub(crate) struct Marker<'a, 'b, 'c, M: CellMemory, C: Bag> {
    pub(crate) memory: &'a mut M,
    pub(crate) cache: &'b mut C,
    pub(crate) collector: &'c mut Collector,
}

impl<'a, 'b, 'c, M: CellMemory, C: Bag> Marker<'a, 'b, 'c, M, C> {
    ghost use Rattle.rules.specs.Collecting.{blacken, tracing, waits, with_next};
    ghost use Rattle.collecting.specs.Marking.{Lent, Marks};

    pub(crate) fn new(
        memory: &'a mut M,
        cache: &'b mut C,
        collector: &'c mut Collector,
    ) -> Marker<'a, 'b, 'c, M, C>
        ensures { Lent memory.entry cache.entry collector.entry result }
    {
        Marker {
            memory,
            cache,
            collector,
        }
    }

    // Marks v: into the cache as Black, or Grey where the cache is full.
    pub(crate) fn blacken(&mut self, v: u16)
        ensures { Marks M.CellMemory C.Bag (λ s. s) (λ s. blacken s v) self.old self.new }
    {
        if colour_of(self.memory, v) == Colour::Black {
            return;
        }
        match self.cache.put(v) {
            Ok(()) => {
                let _ = self.memory.set_colour(v, Colour::Black);
            }
            Err(_) => {
                let _ = self.memory.set_colour(v, Colour::Grey);
                self.collector.dirty = overflowed(v, self.collector.scanned, self.collector.dirty);
            }
        }
    }

    // Follows the next link of the cell in the hand.
    pub(crate) fn follow(&mut self, hand: Hand)
        ensures { Marks M.CellMemory C.Bag (λ s. s) (λ s. (tracing s (Some hand) (waits s)).after) self.old self.new }
    {
        if let Some(v) = link_of(self.memory, hand.cell, hand.link) {
            self.blacken(v);
        }
        self.collector.hand = next_hand(M::link_count(), hand);
    }

    // Blackens the next directory cell.
    pub(crate) fn next_cell(&mut self)
        requires { self.old.collector.now.next < 65535 }
        ensures { Marks M.CellMemory C.Bag (λ s. s) (λ s. with_next (blacken s s.collector.next) (s.collector.next + 1)) self.old self.new }
    {
        let cell = self.collector.next;
        self.blacken(cell);
        self.collector.next = cell + 1;
    }
}

// Takes a cell from the cache, which has one, into the empty hand.
pub(crate) fn take<C: Bag>(cache: &mut C, collector: &mut Collector)
    requires { has_member (C.Bag.means cache.old) ≡ true }
    ensures bag { C.Bag.means cache.new ≡ taken_from (C.Bag.means cache.old) }
    ensures hand { collector.new ≡ alone (λ s. with_hand s (Some (record { cell = (C.Bag.means cache.old).manner.choice (C.Bag.means cache.old).members; link = 0 }))) collector.old }
    ensures rest { C.Bag.spare cache.new ≡ C.Bag.spare cache.old }
{
    if let Ok(cell) = cache.take() {
        collector.hand = Some(Hand { cell, link: 0 });
    }
}

// The hand at the next of so many links, or empty after the last.
fn next_hand(links: usize, hand: Hand) -> Option<Hand>
    ensures { result ≡ next_hand links hand.cell hand.link }
{
    hand.link
        .checked_add(1)
        .filter(|link| *link < links)
        .map(|link| Hand { link, ..hand })
}
