// The numbers that stand for colours, links and refusals in memory that a host lends.
ghost use Rattle.std.specs.Prelude.{◌≡◌, ◌&&◌, nat_lt};
ghost use Rattle.cells.specs.Codes.{code_of, tint, named, word_of, memory_refusal_number};
ghost use Rattle.cells.specs.Memory.{fitting, inside};

use super::{Colour, MemoryRefusal};

// A table has no more cells than this, however much memory is lent.
pub(super) const MOST_CELLS: usize = 4097;

// Above every cell number, so that it names no cell.
const EMPTY: u16 = u16::MAX;

impl From<Colour> for u8 {
    ghost from_gives = { λ colour code. code ≡ code_of colour };

    fn from(colour: Colour) -> u8 {
        colour as u8
    }
}

// Every byte is some colour: the host may lend memory that holds anything.
impl From<u8> for Colour {
    ghost from_gives = { λ code colour. colour ≡ tint code };

    fn from(code: u8) -> Colour {
        match code % 4 {
            0 => Colour::Blue,
            1 => Colour::White,
            2 => Colour::Grey,
            _ => Colour::Black,
        }
    }
}

impl From<MemoryRefusal> for u16 {
    ghost from_gives = { λ refusal number. number ≡ memory_refusal_number refusal };

    fn from(refusal: MemoryRefusal) -> u16 {
        refusal as u16
    }
}

// The place of a cell in a table of n cells.
pub(super) fn place_of(cell: u16, n: u16) -> Result<usize, MemoryRefusal>
    ensures { result ≡ inside (nat_lt cell n) cell }
{
    (cell < n)
        .then_some(cell as usize)
        .ok_or(MemoryRefusal::Outside)
}

// The place of a cell in a table of n cells with so many links, if the cell has a link i.
pub(super) fn place_with_link(
    cell: u16,
    i: usize,
    n: u16,
    links: usize,
) -> Result<usize, MemoryRefusal>
    ensures { result ≡ inside (nat_lt cell n && nat_lt i links) cell }
{
    let place = place_of(cell, n)?;
    (i < links).then_some(place).ok_or(MemoryRefusal::Outside)
}

// What a stored word says as a link of a table of n cells.
pub(super) fn link_of(word: u16, n: u16) -> Option<u16>
    ensures { result ≡ named n word }
{
    (word < n).then_some(word)
}

// The word that is stored for a link value, if a table of n cells can hold it.
pub(super) fn word_of(value: Option<u16>, n: u16) -> Result<u16, MemoryRefusal>
    ensures { result ≡ inside (fitting n value) (word_of value) }
{
    if let Some(cell) = value {
        place_of(cell, n)?;
    }
    Ok(value.unwrap_or(EMPTY))
}
