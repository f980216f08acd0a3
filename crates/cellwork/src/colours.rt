// The colours of cells: read, greyed, and settled.
ghost use Rattle.std.specs.Prelude.{◌≡◌, if◌then◌else◌, None, slice_index_or};
ghost use Rattle.cellwork.specs.Becoming.{CellsBecome};
ghost use Rattle.rules.specs.declared.Status.TheVariants.{Sync2};
ghost use Rattle.rules.specs.Changes.{settled_colour};
ghost use Rattle.rules.specs.Greying.{greyed, greyed_if, greyed_to, same_status};

use cells::{CellMemory, Colour};
use rules::{Status, Swept};
use std::cmp::Ordering;

// The colour of a cell; outside the memory all is White.
pub fn colour_of<M: CellMemory>(memory: &M, x: u16) -> Colour
    ensures { result ≡ (M.CellMemory.means memory.now).colour x }
{
    memory.colour(x).unwrap_or(Colour::White)
}

// Greys the cell, if there is one.
pub fn grey<M: CellMemory>(memory: &mut M, v: Option<u16>)
    ensures { CellsBecome M.CellMemory (λ cells. greyed_if cells v) memory.old memory.new }
{
    if let Some(x) = v {
        grey_cell(memory, x);
    }
}

// A reply: at Sync2 what the registers hold is greyed.
pub fn grey_reply<M: CellMemory>(memory: &mut M, status: Status, registers: [Option<u16>; 8])
    ensures { CellsBecome M.CellMemory (λ cells. if same_status status Sync2 then greyed_to 8 cells (λ j. slice_index_or registers j None) else cells) memory.old memory.new }
{
    if status == Status::Sync2 {
        grey_all(memory, registers);
    }
}

// Greys the cell of each register that holds one.
fn grey_all<M: CellMemory>(memory: &mut M, registers: [Option<u16>; 8])
    ensures { CellsBecome M.CellMemory (λ cells. greyed_to 8 cells (λ j. slice_index_or registers j None)) memory.old memory.new }
{
    for v in registers {
        grey(memory, v);
    }
}

// White becomes Grey; a cell of another colour, or outside the memory, stays as it is.
fn grey_cell<M: CellMemory>(memory: &mut M, x: u16)
    ensures { CellsBecome M.CellMemory (λ cells. greyed cells x) memory.old memory.new }
{
    if memory.colour(x) == Ok(Colour::White) {
        let _ = memory.set_colour(x, Colour::Grey);
    }
}

// The colour of a cell x that a task of this status settles while the sweep is so far.
pub fn settled_colour(status: Status, swept: Swept, x: u16) -> Colour
    ensures { result ≡ settled_colour status swept x }
{
    if status != Status::Async {
        return Colour::White;
    }
    match Swept::At(x).cmp(&swept) {
        Ordering::Less => Colour::White,
        Ordering::Equal => Colour::Grey,
        Ordering::Greater => Colour::Black,
    }
}
