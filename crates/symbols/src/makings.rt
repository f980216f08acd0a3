// Cells that are made: a ticket goes out with make, and comes back with finish or scrap. Fill, finish and scrap answer the 0 that the rules
// give them.
ghost use Rattle.rules.specs.Makings.{make, fill, finish, scrap};
ghost use Rattle.symbols.specs.Tickets.{cell_named, SlotNamed, spent, HandsBack};
ghost use Rattle.symbols.specs.Views.{Does};

use super::parts::Symbols;
use super::ticket::{Ticket, Unspent};
use bags::Bag;
use cells::CellMemory;
use rules::Refusal;

impl<'a, 'b, 'c, M: CellMemory, F: Bag, C: Bag> Symbols<'a, 'b, 'c, M, F, C> {
    // Begins to make the cell that the pool of task m had last.
    pub fn make(&mut self, m: usize) -> Result<Ticket, Refusal>
        ensures does { Does M.CellMemory F.Bag C.Bag (make m) self.old self.new (cell_named result) }
        ensures slot { SlotNamed m result }
    {
        let cell = self.control.make(self.memory, m)?;
        Ok(Ticket { slot: m, cell })
    }

    // Link i of the cell that task m is making holds what register a holds.
    pub fn fill(&mut self, m: usize, i: usize, a: usize) -> Result<u16, Refusal>
        ensures { Does M.CellMemory F.Bag C.Bag (fill m i a) self.old self.new result }
    {
        self.control.fill(self.memory, m, i, a)
    }

    // Ends the making that the ticket names: register b of its task holds the cell.
    pub fn finish(&mut self, ticket: Ticket, b: usize) -> Result<u16, Unspent>
        ensures does { Does M.CellMemory F.Bag C.Bag (finish ticket.slot ticket.cell b) self.old self.new (spent result) }
        ensures back { HandsBack ticket result }
    {
        let Ticket { slot, cell } = ticket;
        self.control
            .finish(slot, cell, b)
            .map_err(|refusal| Unspent {
                ticket: Ticket { slot, cell },
                refusal,
            })
    }

    // Ends the making that the ticket names: the cell goes back to the pool. The ticket is used up even where it is refused.
    pub fn scrap(&mut self, ticket: Ticket) -> Result<u16, Refusal>
        ensures { Does M.CellMemory F.Bag C.Bag (scrap ticket.slot ticket.cell) self.old self.new result }
    {
        let Ticket { slot, cell } = ticket;
        self.control.scrap(self.memory, slot, cell)
    }
}
