// Tickets: refused, handed back, and spent.
use bags::{Bag, Pile, Ring};
use cells::{Board, CellRecord, Colour};
use rules::Refusal;
use symbols::{Symbols, Unspent};

#[test]
fn a_refused_finish_hands_the_ticket_back(rt: HostRuntime) {
    let mut records = [CellRecord {
        colour: 0,
        links: [65535; 4],
    }; 5];
    let mut row = [0u16; 4];
    let mut memory = Board::new(&mut records);
    let mut free = Pile::new(&mut row);
    let mut cache = Ring::new();
    let mut symbols = Symbols::over(&mut memory, &mut free, &mut cache);
    assert_eq!(rt; symbols.set_up(1), Ok(0));
    assert_eq!(rt; symbols.enter(0), Ok(0));
    match symbols.make(0) {
        Err(refusal) => assert_eq!(rt; refusal, Refusal::PoolEmpty),
        Ok(ticket) => {
            let _ = symbols.scrap(ticket);
            assert!(rt; false, "the pool is empty");
        }
    }
    assert_eq!(rt; symbols.reserve(0), Ok(4));
    match symbols.make(0) {
        Err(_) => assert!(rt; false, "the pool has four cells"),
        Ok(ticket) => {
            let cell = ticket.cell();
            match symbols.finish(ticket, 2) {
                Ok(_) => assert!(rt; false, "a cell that is not settled is not finished"),
                Err(Unspent { ticket, refusal }) => {
                    assert_eq!(rt; refusal, Refusal::NotSettled);
                    assert_eq!(rt; symbols.carry_on(0), Ok(false));
                    assert_eq!(rt; symbols.scrap(ticket), Ok(0));
                }
            }
            assert_eq!(rt; symbols.colour(cell), Ok(Colour::Blue));
            assert_eq!(rt; symbols.pool_count(0), Ok(4));
        }
    }
}
