// Set up at its limits, and what comes of the order of a free list.
use bags::{Bag, Pile, Ring};
use cells::Bytes;
use rules::Refusal;
use std::alloc::{AllocError, Global};
use std::test::Fail;
use symbols::Symbols;

// The number of the refusal of a set up, or 0 where it is accepted: numbers, as the rules have them for both.
fn set_up(
    heap: Global,
    bytes: usize,
    free_places: usize,
    cache_places: usize,
    d: u16,
) -> Result<u16, AllocError> {
    let mut bytes = vec![in heap; 170u8; bytes]?;
    let mut free_row = vec![in heap; 0u16; free_places]?;
    let mut cache_row = vec![in heap; 0u16; cache_places]?;
    let mut memory = Bytes::new(&mut bytes);
    let mut free = Pile::new(&mut free_row);
    let mut cache = Pile::new(&mut cache_row);
    let mut symbols = Symbols::over(&mut memory, &mut free, &mut cache);
    Ok(symbols.set_up(d).unwrap_or_else(u16::from))
}

#[test]
fn memory_of_one_and_of_4096_cells(rt: HostRuntime) -> Result<(), Fail> {
    assert_eq!(rt; set_up(rt.alloc(), 4, 0, 1, 1)?, 1);
    assert_eq!(rt; set_up(rt.alloc(), 5, 0, 1, 1)?, 0);
    assert_eq!(rt; set_up(rt.alloc(), 20480, 4095, 1, 1)?, 0);
    assert_eq!(rt; set_up(rt.alloc(), 20485, 4096, 1, 1)?, 1);
    Ok(())
}

#[test]
fn directories_of_none_to_65_cells(rt: HostRuntime) -> Result<(), Fail> {
    assert_eq!(rt; set_up(rt.alloc(), 5, 1, 1, 0)?, 2);
    assert_eq!(rt; set_up(rt.alloc(), 5, 1, 1, 2)?, 2);
    assert_eq!(rt; set_up(rt.alloc(), 320, 0, 1, 64)?, 0);
    assert_eq!(rt; set_up(rt.alloc(), 330, 2, 1, 65)?, 2);
    Ok(())
}

#[test]
fn bags_that_do_not_fit(rt: HostRuntime) -> Result<(), Fail> {
    assert_eq!(rt; set_up(rt.alloc(), 40, 6, 1, 1)?, 10);
    assert_eq!(rt; set_up(rt.alloc(), 40, 7, 0, 1)?, 10);
    assert_eq!(rt; set_up(rt.alloc(), 40, 7, 1, 1)?, 0);
    Ok(())
}

#[test]
fn a_ring_gives_its_oldest_cell_first(rt: HostRuntime) {
    let mut bytes = [0u8; 15];
    let mut memory = Bytes::new(&mut bytes);
    let mut free = Ring::new();
    let mut cache = Ring::new();
    let mut symbols = Symbols::over(&mut memory, &mut free, &mut cache);
    assert_eq!(rt;
        symbols.enter(0),
        Err(Refusal::NoSuchSlot),
        "there are no slots before the set up"
    );
    assert_eq!(rt; symbols.set_up(1), Ok(0));
    assert_eq!(rt;
        symbols.set_up(1),
        Err(Refusal::UnfitBags),
        "the free list holds cells now"
    );
    assert_eq!(rt; symbols.enter(0), Ok(0));
    assert_eq!(rt; symbols.reserve(0), Ok(2));
    assert_eq!(rt; symbols.give_back(0), Ok(2));
    assert_eq!(rt;
        free.take().unwrap_or(0),
        2,
        "the last added went back first"
    );
}

#[test]
fn a_second_set_up_begins_anew(rt: HostRuntime) {
    let mut bytes = [0u8; 5];
    let mut none = [0u16; 0];
    let mut memory = Bytes::new(&mut bytes);
    let mut free = Pile::new(&mut none);
    let mut cache = Ring::new();
    let mut symbols = Symbols::over(&mut memory, &mut free, &mut cache);
    assert_eq!(rt; symbols.set_up(1), Ok(0));
    assert_eq!(rt; symbols.enter(0), Ok(0));
    assert_eq!(rt; symbols.enter(0), Err(Refusal::SlotTaken));
    assert_eq!(rt; symbols.set_up(1), Ok(0));
    assert_eq!(rt; symbols.enter(0), Ok(0), "no task is left");
}
