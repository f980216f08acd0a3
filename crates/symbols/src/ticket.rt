// Tickets for cells that are being made.
ghost use Rattle.std.specs.Prelude.{◌≡◌};

use rules::Refusal;

// Names the task and the cell of a making. Only finish and scrap use it up: it can neither be let go nor copied.
#[must_use]
pub struct Ticket {
    pub(crate) slot: usize,
    pub(crate) cell: u16,
}

// What a refused finish hands back.
#[must_use]
pub struct Unspent {
    pub ticket: Ticket,
    pub refusal: Refusal,
}

impl Ticket {
    // The slot of the task that makes the cell.
    pub fn slot(&self) -> usize
        ensures { result ≡ self.now.slot }
    {
        self.slot
    }

    // The cell that is being made.
    pub fn cell(&self) -> u16
        ensures { result ≡ self.now.cell }
    {
        self.cell
    }
}
