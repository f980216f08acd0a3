// Cell memories: a table of cells, each with a colour and a few links.
#![tactic(auto)]

ghost use Rattle.std.specs.Prelude.{◌≡◌, ℕ, ◌≤◌};
ghost use Rattle.cells.specs.Memory.{Cells, Sound, colour_at, link_at, colour_taken, link_taken, coloured, linked};

mod board;
mod bytes;
mod codes;

pub use board::{Board, CellRecord};
pub use bytes::Bytes;

#[derive(Clone, Copy, PartialEq, Eq, Debug)]
pub enum Colour {
    Blue = 0,
    White = 1,
    Grey = 2,
    Black = 3,
}

// A cell number, a link number or a link value lies outside the table: the one refusal of a memory.
#[derive(Clone, Copy, PartialEq, Eq, Debug)]
pub enum MemoryRefusal {
    Outside = 9,
}

pub trait CellMemory {
    // how many links a cell has
    const LINKS: usize;

    // the value of LINKS, for the clauses
    ghost links: { ℕ };

    // the table
    ghost means: { Self → Cells };

    ghost sound: { (s : Self) → Sound links (means s) };

    // what the host lent, and the part of it that is in no cell
    ghost Spare: { Type 0 };

    ghost spare: { Self → Spare };

    // LINKS; a constant of an `impl` with a lifetime is not proved where a ghost member of its name is to be its value.
    fn link_count() -> usize
        ensures { result ≡ links };

    // n
    fn count(&self) -> u16
        ensures { result ≡ (means self.now).size };

    fn colour(&self, cell: u16) -> Result<Colour, MemoryRefusal>
        ensures { result ≡ colour_at (means self.now) cell };

    // Its clauses and those of set_link stay apart: in one relation each call would name six terms, and read no plainer.
    fn set_colour(&mut self, cell: u16, colour: Colour) -> Result<(), MemoryRefusal>
        ensures answer { result ≡ colour_taken (means self.old) cell }
        ensures after { means self.new ≡ coloured (means self.old) cell colour }
        ensures rest { spare self.new ≡ spare self.old };

    fn link(&self, cell: u16, i: usize) -> Result<Option<u16>, MemoryRefusal>
        ensures { result ≡ link_at links (means self.now) cell i };

    fn set_link(&mut self, cell: u16, i: usize, value: Option<u16>) -> Result<(), MemoryRefusal>
        ensures answer { result ≡ link_taken links (means self.old) cell i value }
        ensures after { means self.new ≡ linked links (means self.old) cell i value }
        ensures rest { spare self.new ≡ spare self.old };

    ghost few: { (1 ≤ links) × (links ≤ 8) };
}
