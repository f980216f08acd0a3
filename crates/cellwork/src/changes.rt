// The first turn of a change, and the warning.
ghost use Rattle.std.specs.Prelude.{◌≡◌};
ghost use Rattle.cellwork.specs.Becoming.{CellsBecome};
ghost use Rattle.rules.specs.Changes.{first_step, greyed_old, warned};
ghost use Rattle.rules.specs.Collecting.{overflowed};

use super::colours::{colour_of, grey};
use cells::{CellMemory, Colour};
use rules::{Status, Step, Swept};

// The first step that a change leaves to a carry on, for a task of this status and the old value of the link.
pub fn first_step<M: CellMemory>(memory: &M, status: Status, swept: Swept, old: Option<u16>) -> Step
    ensures { result ≡ first_step status (M.CellMemory.means memory.now) swept old }
{
    match (status, swept, old) {
        (Status::Async, Swept::Before, Some(x)) if colour_of(memory, x) != Colour::Black => {
            Step::Warn(x)
        }
        (Status::Async, _, _) => Step::Store,
        _ => Step::Grey,
    }
}

// Greys the old value at once, unless only the store is left.
pub fn grey_old<M: CellMemory>(memory: &mut M, step: Step, old: Option<u16>)
    ensures { CellsBecome M.CellMemory (λ cells. greyed_old step cells old) memory.old memory.new }
{
    match step {
        Step::Grey | Step::Warn(_) => grey(memory, old),
        Step::Store => {}
    }
}

// Dirty after the warning about old: yes, if the scan may have passed it. A scan that has no place is below every cell.
pub fn warned(old: u16, scanned: Option<u16>, dirty: bool) -> bool
    ensures { result ≡ warned old scanned dirty }
{
    Some(old) <= scanned || dirty
}

// Dirty after v had no place in the cache: yes, if the scan is past it and will not find it. A rule of its own beside the warning, which
// asks for ≤.
pub fn overflowed(v: u16, scanned: Option<u16>, dirty: bool) -> bool
    ensures { result ≡ overflowed v scanned dirty }
{
    Some(v) < scanned || dirty
}
