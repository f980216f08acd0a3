// The three shapes of a change, and the collector's turns through a cycle.
use bags::{Bag, Pile, Ring};
use cells::{Board, Bytes, CellMemory, CellRecord, Colour};
use rules::{Stage, Turn};
use symbols::Symbols;

const BLANK: CellRecord = CellRecord {
    colour: 0,
    links: [65535; 4],
};

// How many turns the collector needs from Rest to Rest, if it comes back; a task in slot 0, if there is one, replies.
fn cycle<'a, 'b, 'c, M: CellMemory, F: Bag, C: Bag>(
    symbols: &mut Symbols<'a, 'b, 'c, M, F, C>,
) -> Option<u16> {
    for turn in 1..500u16 {
        match symbols.collect() {
            Turn::Returned => return Some(turn),
            Turn::Waited => {
                let _ = symbols.cooperate(0);
            }
            Turn::Worked => {}
        }
    }
    None
}

// A cycle over one directory cell that link 0 of its own names, and no task.
fn cycle_of_one<M: CellMemory, F: Bag, C: Bag>(
    memory: &mut M,
    free: &mut F,
    cache: &mut C,
) -> Option<u16> {
    let mut symbols = Symbols::over(memory, free, cache);
    let _ = symbols.set_up(1);
    let _ = symbols.enter(0);
    let _ = symbols.point(0, 0, 0);
    let _ = symbols.change(0, 0, 0, 0);
    let _ = symbols.carry_on(0);
    let _ = symbols.leave(0);
    cycle(&mut symbols)
}

#[test]
fn twelve_turns_and_one_a_link(rt: HostRuntime) {
    let mut records = [BLANK; 1];
    let mut bytes = [255u8; 5];
    let mut none = [0u16; 0];
    let mut nothing = [0u16; 0];
    let on_board = cycle_of_one(
        &mut Board::new(&mut records),
        &mut Pile::new(&mut none),
        &mut Ring::new(),
    );
    let on_bytes = cycle_of_one(
        &mut Bytes::new(&mut bytes),
        &mut Pile::new(&mut nothing),
        &mut Ring::new(),
    );
    assert_eq!(rt; on_board, Some(16));
    assert_eq!(rt; on_bytes, Some(14));
}

#[test]
fn the_stages_of_a_cycle(rt: HostRuntime) {
    let mut records = [BLANK; 1];
    let mut none = [0u16; 0];
    let mut memory = Board::new(&mut records);
    let mut free = Pile::new(&mut none);
    let mut cache = Ring::new();
    let mut symbols = Symbols::over(&mut memory, &mut free, &mut cache);
    assert_eq!(rt;
        symbols.collect(),
        Turn::Waited,
        "there is no directory yet"
    );
    assert_eq!(rt; symbols.set_up(1), Ok(0));
    assert_eq!(rt; symbols.enter(0), Ok(0));
    assert_eq!(rt; symbols.collect(), Turn::Worked);
    assert_eq!(rt; symbols.stage(), Stage::Clear);
    assert_eq!(rt; symbols.collect(), Turn::Waited, "the task has not replied");
    assert_eq!(rt; symbols.leave(0), Ok(0));
    let stages = [(9, Stage::Mark), (3, Stage::Scan), (2, Stage::Sweep)];
    for (turns, stage) in stages {
        for _ in 0..turns {
            assert_eq!(rt; symbols.collect(), Turn::Worked);
            assert_eq!(rt; symbols.stage(), stage);
        }
    }
    assert_eq!(rt; symbols.collect(), Turn::Returned);
    assert_eq!(rt; symbols.stage(), Stage::Rest);
}

#[test]
fn a_change_in_its_three_shapes(rt: HostRuntime) {
    let mut records = [BLANK; 4];
    let mut row = [0u16; 1];
    let mut memory = Board::new(&mut records);
    let mut free = Pile::new(&mut row);
    let mut cache = Ring::new();
    let mut symbols = Symbols::over(&mut memory, &mut free, &mut cache);
    assert_eq!(rt; symbols.set_up(3), Ok(0));
    assert_eq!(rt; symbols.enter(0), Ok(0));
    let _ = symbols.point(0, 0, 0);
    let _ = symbols.point(0, 1, 1);
    let _ = symbols.point(0, 2, 2);
    // at Async, with no marking to disturb: the link is stored at once
    assert_eq!(rt; symbols.change(0, 0, 0, 1), Ok(0));
    assert_eq!(rt; symbols.carry_on(0), Ok(false));
    assert_eq!(rt; symbols.link(0, 0), Ok(Some(1)));
    // at Sync1: the old value is greyed, then the new one, and then the link is stored
    let _ = symbols.collect();
    assert_eq!(rt; symbols.cooperate(0), Ok(true));
    assert_eq!(rt; symbols.change(0, 0, 0, 2), Ok(0));
    assert_eq!(rt; symbols.colour(1), Ok(Colour::Grey));
    assert_eq!(rt; symbols.carry_on(0), Ok(true));
    assert_eq!(rt; symbols.colour(2), Ok(Colour::Grey));
    assert_eq!(rt; symbols.carry_on(0), Ok(false));
    assert_eq!(rt; symbols.link(0, 0), Ok(Some(2)));
}

#[test]
fn a_change_that_warns(rt: HostRuntime) {
    let mut records = [BLANK; 4];
    let mut row = [0u16; 3];
    let mut memory = Board::new(&mut records);
    let mut free = Pile::new(&mut row);
    let mut cache = Ring::new();
    let mut symbols = Symbols::over(&mut memory, &mut free, &mut cache);
    assert_eq!(rt; symbols.set_up(1), Ok(0));
    assert_eq!(rt; symbols.enter(0), Ok(0));
    let _ = symbols.point(0, 0, 0);
    let _ = symbols.change(0, 0, 0, 0);
    let _ = symbols.carry_on(0);
    // to Mark with the task at Async again, before the directory is blackened
    for _ in 0..3 {
        let _ = symbols.collect();
        let _ = symbols.cooperate(0);
    }
    assert_eq!(rt; symbols.stage(), Stage::Mark);
    assert_eq!(rt; symbols.change(0, 0, 0, 1), Ok(0));
    assert_eq!(rt; symbols.carry_on(0), Ok(true), "it warns of the old value");
    assert_eq!(rt; symbols.carry_on(0), Ok(false), "and then stores");
    assert_eq!(rt; symbols.link(0, 0), Ok(None));
    assert_eq!(rt; cycle(&mut symbols).is_some(), true);
    assert_eq!(rt; symbols.stage(), Stage::Rest);
}
