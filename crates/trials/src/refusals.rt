// Each refusal of a call, met once.
use bags::{Bag, BagRefusal, Pile, Ring};
use cells::{Board, CellRecord};
use rules::Refusal;
use symbols::Symbols;

const BLANK: CellRecord = CellRecord {
    colour: 0,
    links: [65535; 4],
};

#[test]
fn refused_for_the_input(rt: HostRuntime) {
    let mut records = [BLANK; 8];
    let mut row = [0u16; 7];
    let mut memory = Board::new(&mut records);
    let mut free = Pile::new(&mut row);
    let mut cache = Ring::new();
    let mut symbols = Symbols::over(&mut memory, &mut free, &mut cache);
    assert_eq!(rt; symbols.set_up(9), Err(Refusal::DirectorySize));
    assert_eq!(rt; symbols.set_up(1), Ok(0));
    assert_eq!(rt; symbols.enter(8), Err(Refusal::NoSuchSlot));
    assert_eq!(rt; symbols.launch(0, 8, 0), Err(Refusal::NoSuchSlot));
    assert_eq!(rt; symbols.clear_register(0, 8), Err(Refusal::NoSuchRegister));
    assert_eq!(rt; symbols.load(0, 0, 4, 0), Err(Refusal::NoSuchLink));
    assert_eq!(rt; symbols.change(0, 0, 4, 0), Err(Refusal::NoSuchLink));
    assert_eq!(rt; symbols.fill(0, 4, 0), Err(Refusal::NoSuchLink));
    assert_eq!(rt; symbols.point(0, 1, 0), Err(Refusal::NoSuchDirectoryCell));
}

#[test]
fn refused_for_the_tasks(rt: HostRuntime) {
    let mut records = [BLANK; 8];
    let mut row = [0u16; 7];
    let mut memory = Board::new(&mut records);
    let mut free = Pile::new(&mut row);
    let mut cache = Ring::new();
    let mut symbols = Symbols::over(&mut memory, &mut free, &mut cache);
    assert_eq!(rt; symbols.set_up(1), Ok(0));
    assert_eq!(rt; symbols.leave(0), Err(Refusal::NoTask));
    assert_eq!(rt; symbols.enter(0), Ok(0));
    assert_eq!(rt; symbols.enter(0), Err(Refusal::SlotTaken));
    assert_eq!(rt; symbols.launch(0, 0, 0), Err(Refusal::SlotTaken));
    assert_eq!(rt; symbols.load(0, 1, 0, 2), Err(Refusal::RegisterEmpty));
    assert_eq!(rt; symbols.carry_on(0), Err(Refusal::NothingToCarryOn));
    assert_eq!(rt; symbols.fill(0, 0, 1), Err(Refusal::NoSuchMaking));
    assert_eq!(rt; symbols.point(0, 0, 1), Ok(0));
    assert_eq!(rt; symbols.change(0, 1, 0, 1), Ok(0));
    assert_eq!(rt; symbols.leave(0), Err(Refusal::WorkUnfinished));
    assert_eq!(rt; symbols.carry_on(0), Ok(false));
    let _ = symbols.collect();
    assert_eq!(rt; symbols.launch(0, 1, 2), Err(Refusal::StatusBehind));
    assert_eq!(rt; symbols.cooperate(0), Ok(true));
    assert_eq!(rt; symbols.launch(0, 1, 130), Ok(2));
    assert_eq!(rt; symbols.register(1, 1), Ok(Some(0)));
}

#[test]
fn refused_for_the_pools(rt: HostRuntime) {
    let mut records = [BLANK; 5];
    let mut row = [0u16; 4];
    let mut memory = Board::new(&mut records);
    let mut free = Pile::new(&mut row);
    let mut cache = Ring::new();
    let mut symbols = Symbols::over(&mut memory, &mut free, &mut cache);
    assert_eq!(rt; symbols.set_up(1), Ok(0));
    assert_eq!(rt; symbols.enter(0), Ok(0));
    assert_eq!(rt; symbols.enter(1), Ok(0));
    assert_eq!(rt; symbols.reserve(0), Ok(4));
    assert_eq!(rt; symbols.reserve(0), Err(Refusal::PoolFull));
    assert_eq!(rt; symbols.reserve(1), Err(Refusal::FreeListEmpty));
    assert_eq!(rt; symbols.leave(0), Err(Refusal::PoolNotEmpty));
    assert_eq!(rt; symbols.give_back(0), Ok(4));
    assert_eq!(rt; symbols.free_count(), 4);
}

#[test]
fn refused_by_a_bag(rt: HostRuntime) {
    let mut row = [0u16; 1];
    let mut pile = Pile::new(&mut row);
    assert_eq!(rt; pile.take(), Err(BagRefusal::Empty));
    assert_eq!(rt; pile.put(7), Ok(()));
    assert_eq!(rt; pile.put(8), Err(BagRefusal::Full));
    assert_eq!(rt; pile.take(), Ok(7));
    assert_eq!(rt; u16::from(BagRefusal::Full), 23);
    assert_eq!(rt; u16::from(BagRefusal::Empty), 24);
}
