// What a symbol memory tells of itself; nothing here changes it.
ghost use Rattle.std.specs.Prelude.{◌≡◌, length};
ghost use Rattle.cells.specs.Memory.{colour_at, link_at};
ghost use Rattle.rules.specs.Questions.{status_told, pool_told, register_told};
ghost use Rattle.symbols.specs.Views.{state_of};

use super::parts::Symbols;
use bags::Bag;
use cells::{CellMemory, Colour, MemoryRefusal};
use rules::{Refusal, Stage, Status};

impl<'a, 'b, 'c, M: CellMemory, F: Bag, C: Bag> Symbols<'a, 'b, 'c, M, F, C> {
    // What register j of task m holds.
    pub fn register(&self, m: usize, j: usize) -> Result<Option<u16>, Refusal>
        ensures { result ≡ register_told (state_of M.CellMemory F.Bag C.Bag self.now).directory (state_of M.CellMemory F.Bag C.Bag self.now).tasks m j }
    {
        self.control.register(m, j)
    }

    // The status of task m.
    pub fn status(&self, m: usize) -> Result<Status, Refusal>
        ensures { result ≡ status_told (state_of M.CellMemory F.Bag C.Bag self.now).directory (state_of M.CellMemory F.Bag C.Bag self.now).tasks m }
    {
        self.control.status(m)
    }

    // How many cells the pool of task m has.
    pub fn pool_count(&self, m: usize) -> Result<usize, Refusal>
        ensures { result ≡ pool_told (state_of M.CellMemory F.Bag C.Bag self.now).directory (state_of M.CellMemory F.Bag C.Bag self.now).tasks m }
    {
        self.control.pool_count(m)
    }

    // How many cells the memory has.
    pub fn cell_count(&self) -> u16
        ensures { result ≡ (state_of M.CellMemory F.Bag C.Bag self.now).cells.size }
    {
        self.memory.count()
    }

    // How many directory cells there are; none before the set up.
    pub fn directory_count(&self) -> u16
        ensures { result ≡ (state_of M.CellMemory F.Bag C.Bag self.now).directory }
    {
        self.control.directory
    }

    // How many cells are in the free list.
    pub fn free_count(&self) -> usize
        ensures { result ≡ length (state_of M.CellMemory F.Bag C.Bag self.now).free.members }
    {
        self.free.count()
    }

    // How many cells are in the collector's cache.
    pub fn cache_count(&self) -> usize
        ensures { result ≡ length (state_of M.CellMemory F.Bag C.Bag self.now).cache.members }
    {
        self.cache.count()
    }

    pub fn stage(&self) -> Stage
        ensures { result ≡ (state_of M.CellMemory F.Bag C.Bag self.now).collector.stage }
    {
        self.control.collector.stage
    }

    // The status that the collector asks of the tasks.
    pub fn collector_status(&self) -> Status
        ensures { result ≡ (state_of M.CellMemory F.Bag C.Bag self.now).collector.status }
    {
        self.control.collector.status
    }

    pub fn colour(&self, cell: u16) -> Result<Colour, MemoryRefusal>
        ensures { result ≡ colour_at (state_of M.CellMemory F.Bag C.Bag self.now).cells cell }
    {
        self.memory.colour(cell)
    }

    pub fn link(&self, cell: u16, i: usize) -> Result<Option<u16>, MemoryRefusal>
        ensures { result ≡ link_at M.CellMemory.links (state_of M.CellMemory F.Bag C.Bag self.now).cells cell i }
    {
        self.memory.link(cell, i)
    }
}
