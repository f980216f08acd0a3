// A cell that is built in one line: made, settled, filled and finished.
ghost use Rattle.console.specs.Building.{build};
ghost use Rattle.symbols.specs.Views.{Does};

use bags::Bag;
use cells::CellMemory;
use rules::Refusal;
use symbols::{Symbols, Unspent};

// Link 0 of the new cell holds what register a holds, and register b holds the cell; answers the cell. The registers are asked for first,
// so that a bad one leaves no half-made cell.
pub fn build<'a, 'b, 'c, M: CellMemory, F: Bag, C: Bag>(
    symbols: &mut Symbols<'a, 'b, 'c, M, F, C>,
    m: usize,
    b: usize,
    a: usize,
) -> Result<u16, Refusal>
    ensures { Does M.CellMemory F.Bag C.Bag (build m b a) symbols.old symbols.new result }
{
    symbols.register(m, a.max(b))?;
    let ticket = symbols.make(m)?;
    let cell = ticket.cell();
    let _ = symbols.carry_on(m);
    let _ = symbols.fill(m, 0, a);
    match symbols.finish(ticket, b) {
        Ok(_) => Ok(cell),
        // It does not come to this; but a ticket is never let go.
        Err(Unspent { ticket, refusal }) => {
            let _ = symbols.scrap(ticket);
            Err(refusal)
        }
    }
}
