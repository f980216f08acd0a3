// Sweep: what was marked is White again, and what was not is free. A step on and a look, as in Scan, but at another place, with other effects
// and the free list for the cache. Two functions alone take memory, free list and collector, so no struct holds the three.
ghost use Rattle.std.specs.Prelude.{◌≡◌};
ghost use Rattle.rules.specs.Collecting.{sweeping, swept as swept_cell};
ghost use Rattle.rules.specs.State.{accepted};
ghost use Rattle.rules.specs.TurnNumbers.{turn_number};
ghost use Rattle.collecting.specs.Gathering.{Sweeps};

use super::phases::sweep_to;
use bags::Bag;
use cells::{CellMemory, Colour};
use cellwork::colour_of;
use rules::{Collector, Stage, Swept, Turn};

// Looks at cell k, and frees it if it is White.
fn look<M: CellMemory, F: Bag>(memory: &mut M, free: &mut F, collector: &mut Collector, k: u16)
    ensures { Sweeps M.CellMemory F.Bag (λ s. s) (λ s. swept_cell s k (s.cells.colour k)) memory.entry memory.exit free.entry free.exit collector.entry collector.exit }
{
    match colour_of(memory, k) {
        Colour::Blue => {}
        Colour::White => {
            let _ = memory.set_colour(k, Colour::Blue);
            let _ = free.put(k);
        }
        Colour::Grey | Colour::Black => {
            let _ = memory.set_colour(k, Colour::White);
        }
    }
    collector.looked = true;
}

// A turn of the sweep: it looks at a cell, or goes on to the next; past the last it returns to Rest.
pub(crate) fn sweep<M: CellMemory, F: Bag>(
    memory: &mut M,
    free: &mut F,
    collector: &mut Collector,
) -> Turn
    ensures { Sweeps M.CellMemory F.Bag (accepted (turn_number result)) (λ s. sweeping s s.collector.swept) memory.entry memory.exit free.entry free.exit collector.entry collector.exit }
{
    let Swept::At(k) = collector.swept else {
        return Turn::Waited;
    };
    if !collector.looked {
        look(memory, free, collector, k);
        return Turn::Worked;
    }
    match k.checked_add(1) {
        Some(next) if next < memory.count() => {
            sweep_to(collector, Swept::At(next), Stage::Sweep);
            Turn::Worked
        }
        _ => {
            sweep_to(collector, Swept::Past, Stage::Rest);
            Turn::Returned
        }
    }
}
