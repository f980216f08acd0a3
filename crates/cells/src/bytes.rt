// A cell memory in a stretch of bytes, two links to a cell: a colour byte, then each link in two bytes, the high one first. It shares its
// checks with board memory, and nothing else, for the layout is another.
ghost use Rattle.std.specs.Borrow.{GName};
ghost use Rattle.std.specs.Prelude.{◌≡◌, ℕ, ◌+◌, ◌<◌, List, length};
ghost use Rattle.cells.specs.Memory.{colour_taken, link_taken, coloured, linked};
ghost use Rattle.cells.specs.Stretch.{stretch_mean, stretch_spare, bytes_sound, two_few, link_place, word_at, word_put, bytes_coloured, bytes_linked};

use super::codes::{MOST_CELLS, link_of, place_of, place_with_link, word_of};
use super::{CellMemory, Colour, MemoryRefusal};

const CELL_BYTES: usize = 5;

#[derive(Drop)]
pub struct Bytes<'a> {
    bytes: &'a mut [u8],
}

impl<'a> Bytes<'a> {
    pub fn new(bytes: &'a mut [u8]) -> Bytes<'a>
        ensures value { result.bytes.now ≡ bytes.old }
        ensures lender { result.bytes.ghost_name ≡ bytes.entry.ghost_name }
    {
        Bytes { bytes }
    }
}

impl<'a> CellMemory for Bytes<'a> {
    const LINKS: usize = 2;

    ghost links = { 2 };

    ghost means = { stretch_mean };

    ghost sound = { λ s. bytes_sound s.bytes.now };

    ghost Spare = { List ℕ × GName };

    ghost spare = { stretch_spare };

    fn link_count() -> usize
        ensures { result ≡ 2 }
    {
        Self::LINKS
    }

    fn count(&self) -> u16 {
        (self.bytes.len() / CELL_BYTES).min(MOST_CELLS) as u16
    }

    fn colour(&self, cell: u16) -> Result<Colour, MemoryRefusal> {
        let place = place_of(cell, self.count())?;
        Ok(Colour::from(self.bytes[CELL_BYTES * place]))
    }

    fn set_colour(&mut self, cell: u16, colour: Colour) -> Result<(), MemoryRefusal>
        ensures answer { result ≡ colour_taken (stretch_mean self.old) cell }
        ensures after { stretch_mean self.new ≡ coloured (stretch_mean self.old) cell colour }
        ensures rest { stretch_spare self.new ≡ stretch_spare self.old }
        ensures exact { self.new.bytes.now ≡ bytes_coloured self.old.bytes.now cell colour }
    {
        let place = place_of(cell, self.count())?;
        self.bytes[CELL_BYTES * place] = u8::from(colour);
        Ok(())
    }

    fn link(&self, cell: u16, i: usize) -> Result<Option<u16>, MemoryRefusal> {
        let n = self.count();
        place_with_link(cell, i, n, Self::LINKS)?;
        let word = word_at(self.bytes, link_place(cell, i));
        Ok(link_of(word, n))
    }

    fn set_link(&mut self, cell: u16, i: usize, value: Option<u16>) -> Result<(), MemoryRefusal>
        ensures answer { result ≡ link_taken 2 (stretch_mean self.old) cell i value }
        ensures after { stretch_mean self.new ≡ linked 2 (stretch_mean self.old) cell i value }
        ensures rest { stretch_spare self.new ≡ stretch_spare self.old }
        ensures exact { self.new.bytes.now ≡ bytes_linked self.old.bytes.now cell i value }
    {
        let n = self.count();
        place_with_link(cell, i, n, Self::LINKS)?;
        let word = word_of(value, n)?;
        put_word(self.bytes, link_place(cell, i), word);
        Ok(())
    }

    ghost few = { two_few };
}

// Where the high byte of a link stands.
fn link_place(cell: u16, i: usize) -> usize
    requires { i < 2 }
    ensures { result ≡ link_place cell i }
{
    CELL_BYTES * cell as usize + 2 * i + 1
}

fn word_at(bytes: &[u8], place: usize) -> u16
    requires { place + 1 < length bytes.now }
    ensures { result ≡ word_at bytes.now place }
{
    u16::from_be_bytes([bytes[place], bytes[place + 1]])
}

fn put_word(bytes: &mut [u8], place: usize, word: u16)
    requires { place + 1 < length bytes.old }
    ensures { bytes.new ≡ word_put bytes.old place word }
{
    let [high, low] = word.to_be_bytes();
    bytes[place] = high;
    bytes[place + 1] = low;
}
