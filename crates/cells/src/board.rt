// A cell memory in a row of records, four links to a cell.
ghost use Rattle.std.specs.Borrow.{GName};
ghost use Rattle.std.specs.Prelude.{◌≡◌, List};
ghost use Rattle.cells.specs.declared.board.CellRecord.{CellRecord as Row};
ghost use Rattle.cells.specs.Memory.{colour_taken, link_taken, coloured, linked};
ghost use Rattle.cells.specs.Rows.{board_mean, board_spare, rows_sound, four_few, rows_coloured, rows_linked};

use super::codes::{MOST_CELLS, link_of, place_of, place_with_link, word_of};
use super::{CellMemory, Colour, MemoryRefusal};

// A cell in numbers alone, so that a host in C can lend a row of them: a colour code, which counts modulo 4,
// and links, of which one that names no cell, as 65,535, is empty.
#[repr(C)]
#[derive(Clone, Copy)]
pub struct CellRecord {
    pub colour: u8,
    pub links: [u16; 4],
}

#[derive(Drop)]
pub struct Board<'a> {
    rows: &'a mut [CellRecord],
}

impl<'a> Board<'a> {
    pub fn new(rows: &'a mut [CellRecord]) -> Board<'a>
        ensures value { result.rows.now ≡ rows.old }
        ensures lender { result.rows.ghost_name ≡ rows.entry.ghost_name }
    {
        Board { rows }
    }
}

impl<'a> CellMemory for Board<'a> {
    const LINKS: usize = 4;

    ghost links = { 4 };

    ghost means = { board_mean };

    ghost sound = { λ s. rows_sound s.rows.now };

    ghost Spare = { List Row × GName };

    ghost spare = { board_spare };

    fn link_count() -> usize
        ensures { result ≡ 4 }
    {
        Self::LINKS
    }

    fn count(&self) -> u16 {
        self.rows.len().min(MOST_CELLS) as u16
    }

    fn colour(&self, cell: u16) -> Result<Colour, MemoryRefusal> {
        let place = place_of(cell, self.count())?;
        Ok(Colour::from(self.rows[place].colour))
    }

    fn set_colour(&mut self, cell: u16, colour: Colour) -> Result<(), MemoryRefusal>
        ensures answer { result ≡ colour_taken (board_mean self.old) cell }
        ensures after { board_mean self.new ≡ coloured (board_mean self.old) cell colour }
        ensures rest { board_spare self.new ≡ board_spare self.old }
        ensures exact { self.new.rows.now ≡ rows_coloured self.old.rows.now cell colour }
    {
        let place = place_of(cell, self.count())?;
        self.rows[place].colour = u8::from(colour);
        Ok(())
    }

    fn link(&self, cell: u16, i: usize) -> Result<Option<u16>, MemoryRefusal> {
        let n = self.count();
        let place = place_with_link(cell, i, n, Self::LINKS)?;
        Ok(link_of(self.rows[place].links[i], n))
    }

    fn set_link(&mut self, cell: u16, i: usize, value: Option<u16>) -> Result<(), MemoryRefusal>
        ensures answer { result ≡ link_taken 4 (board_mean self.old) cell i value }
        ensures after { board_mean self.new ≡ linked 4 (board_mean self.old) cell i value }
        ensures rest { board_spare self.new ≡ board_spare self.old }
        ensures exact { self.new.rows.now ≡ rows_linked self.old.rows.now cell i value }
    {
        let n = self.count();
        let place = place_with_link(cell, i, n, Self::LINKS)?;
        let word = word_of(value, n)?;
        // Borrowed first, so that the check knows the array's length.
        let links = &mut self.rows[place].links;
        links[i] = word;
        Ok(())
    }

    ghost few = { four_few };
}
