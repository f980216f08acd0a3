// Scan, where there is nothing to trace: cell by cell, until no Grey cell is left.
ghost use Rattle.std.specs.Prelude.{◌≡◌};
ghost use Rattle.rules.specs.Collecting.{looking};
ghost use Rattle.rules.specs.State.{accepted};
ghost use Rattle.rules.specs.TurnNumbers.{turn_number};
ghost use Rattle.collecting.specs.Gathering.{scan_on};
ghost use Rattle.collecting.specs.Marking.{Marks};

use super::marking::Marker;
use super::phases::{begin_scan, scan_from, sweep_from};
use bags::Bag;
use cells::{CellMemory, Colour};
use cellwork::colour_of;
use rules::Turn;

impl<'a, 'b, 'c, M: CellMemory, C: Bag> Marker<'a, 'b, 'c, M, C> {
    // A turn of the scan: it looks at a cell, or goes on to the next; past the last it begins again if dirty, or the sweep begins.
    pub(crate) fn scan(&mut self) -> Turn
        ensures { Marks M.CellMemory C.Bag (accepted (turn_number result)) (λ s. scan_on s s.collector.scanned) self.old self.new }
    {
        let Some(k) = self.collector.scanned else {
            return Turn::Waited;
        };
        match (
            k < self.memory.count(),
            self.collector.looked,
            self.collector.dirty,
        ) {
            (true, false, _) => self.look(k),
            (true, true, dirty) => scan_from(self.collector, dirty, k + 1),
            (false, _, true) => begin_scan(self.collector),
            (false, _, false) => sweep_from(self.collector),
        }
        Turn::Worked
    }

    // Looks at cell k, and blackens it if it is Grey.
    fn look(&mut self, k: u16)
        ensures { Marks M.CellMemory C.Bag (λ s. s) (λ s. looking s k) self.old self.new }
    {
        if colour_of(self.memory, k) == Colour::Grey {
            self.blacken(k);
        }
        self.collector.looked = true;
    }
}
