// Links that are emptied and read.
ghost use Rattle.std.specs.Prelude.{◌≡◌};
ghost use Rattle.cellwork.specs.Becoming.{CellsBecome};
ghost use Rattle.rules.specs.Makings.{unlinked};

use cells::CellMemory;

// All links of cell x are emptied. A memory is asked link by link, so the loop counts them.
pub fn empty_links<M: CellMemory>(memory: &mut M, x: u16)
    ensures { CellsBecome M.CellMemory (λ cells. unlinked cells x) memory.old memory.new }
{
    for i in 0..M::link_count() {
        let _ = memory.set_link(x, i, None);
    }
}

// Link i of cell x; there is none outside the memory.
pub fn link_of<M: CellMemory>(memory: &M, x: u16, i: usize) -> Option<u16>
    ensures { result ≡ (M.CellMemory.means memory.now).link x i }
{
    memory.link(x, i).unwrap_or(None)
}
