// One job on board memory and on byte memory, with other bags, through two cycles of the collector, and whether both were answered alike.
#![tactic(auto)]

use bags::{Bag, Pile, Ring};
use cells::{Board, Bytes, CellMemory, CellRecord, Colour};
use rules::{Refusal, Turn};
use std::{fmt, io};
use symbols::{Symbols, Unspent};

// A step of the job, what it was answered, and whether the memory and the bags have no say in that: which cell is made is the bag's choice,
// and how many turns a cycle has depends on the links of a cell.
#[derive(Clone, Copy)]
struct Step {
    what: &'static str,
    answer: Result<u16, Refusal>,
    of_both: bool,
}

impl Step {
    fn of_both(what: &'static str, answer: Result<u16, Refusal>) -> Step {
        Step {
            what,
            answer,
            of_both: true,
        }
    }

    fn of_one(what: &'static str, answer: Result<u16, Refusal>) -> Step {
        Step {
            what,
            answer,
            of_both: false,
        }
    }
}

impl fmt::Display for Step {
    fn fmt<W: fmt::Write>(&self, f: &mut fmt::Formatter<W>) -> fmt::Result {
        match self.answer {
            Ok(number) => write!(f, "ok {number}"),
            Err(refusal) => write!(f, "no {}", u16::from(refusal)),
        }
    }
}

// Make, carry on, fill and finish: a cell whose link 0 holds what register 3 does, into register 5.
fn build<'a, 'b, 'c, M: CellMemory, F: Bag, C: Bag>(
    symbols: &mut Symbols<'a, 'b, 'c, M, F, C>,
    steps: &mut Vec<Step>,
) -> io::Result<()> {
    match symbols.make(0) {
        Err(refusal) => steps.push(Step::of_one("make", Err(refusal)))?,
        Ok(ticket) => {
            // The ticket is spent before a step is written down, since that may fail.
            let made = ticket.cell();
            let settled = symbols.carry_on(0).map(u16::from);
            let filled = symbols.fill(0, 0, 3);
            let finished = match symbols.finish(ticket, 5) {
                Ok(answer) => Ok(answer),
                Err(Unspent { ticket, refusal }) => {
                    let _ = symbols.scrap(ticket);
                    Err(refusal)
                }
            };
            steps.push(Step::of_one("make, which answers the cell", Ok(made)))?;
            steps.push(Step::of_both("carry on, which settles it", settled))?;
            steps.push(Step::of_both("fill its link 0 from register 3", filled))?;
            steps.push(Step::of_both("finish it into register 5", finished))?;
        }
    }
    Ok(())
}

// The collector's turns from Rest to Rest, while task 0 replies whenever it is waited for; 0 if it does not come back.
fn cycle<'a, 'b, 'c, M: CellMemory, F: Bag, C: Bag>(
    symbols: &mut Symbols<'a, 'b, 'c, M, F, C>,
) -> u16 {
    for turn in 1..500u16 {
        match symbols.collect() {
            Turn::Returned => return turn,
            Turn::Waited => {
                let _ = symbols.cooperate(0);
            }
            Turn::Worked => {}
        }
    }
    0
}

// How many cells are Blue.
fn blue<'a, 'b, 'c, M: CellMemory, F: Bag, C: Bag>(symbols: &Symbols<'a, 'b, 'c, M, F, C>) -> u16 {
    (0..symbols.cell_count())
        .filter(|cell| symbols.colour(*cell) == Ok(Colour::Blue))
        .count() as u16
}

// A cell is built, hung on the directory, dropped and won back.
fn job<M: CellMemory, F: Bag, C: Bag>(
    memory: &mut M,
    free: &mut F,
    cache: &mut C,
    steps: &mut Vec<Step>,
) -> io::Result<()> {
    let mut symbols = Symbols::over(memory, free, cache);
    steps.push(Step::of_both("set up with 2 directory cells", symbols.set_up(2)))?;
    steps.push(Step::of_both("enter 0", symbols.enter(0)))?;
    steps.push(Step::of_both(
        "point register 3 at directory cell 1",
        symbols.point(0, 1, 3),
    ))?;
    steps.push(Step::of_both(
        "load link 0 of it into register 4",
        symbols.load(0, 3, 0, 4),
    ))?;
    steps.push(Step::of_both(
        "load from register 4, which is empty",
        symbols.load(0, 4, 0, 5),
    ))?;
    steps.push(Step::of_both("reserve", symbols.reserve(0)))?;
    build(&mut symbols, steps)?;
    steps.push(Step::of_both(
        "change link 0 of the directory cell to it",
        symbols.change(0, 3, 0, 5),
    ))?;
    steps.push(Step::of_both(
        "carry on, which stores that",
        symbols.carry_on(0).map(u16::from),
    ))?;
    steps.push(Step::of_both("clear register 5", symbols.clear_register(0, 5)))?;
    steps.push(Step::of_one(
        "turns of the collector from Rest to Rest",
        Ok(cycle(&mut symbols)),
    ))?;
    steps.push(Step::of_both("Blue cells then", Ok(blue(&symbols))))?;
    steps.push(Step::of_both("change that link to nothing", symbols.change(0, 3, 0, 4)))?;
    steps.push(Step::of_both(
        "carry on, which stores that",
        symbols.carry_on(0).map(u16::from),
    ))?;
    steps.push(Step::of_one(
        "turns of the collector from Rest to Rest",
        Ok(cycle(&mut symbols)),
    ))?;
    steps.push(Step::of_both("Blue cells then", Ok(blue(&symbols))))?;
    steps.push(Step::of_both("leave with a pool that is not empty", symbols.leave(0)))?;
    steps.push(Step::of_both("give back", symbols.give_back(0)))?;
    steps.push(Step::of_both("leave", symbols.leave(0)))?;
    Ok(())
}

fn main(rt: HostRuntime) -> io::Result<()> {
    let mut records = [CellRecord {
        colour: 3,
        links: [0; 4],
    }; 8];
    let mut bytes = [170u8; 43];
    let mut on_board = Vec::new(rt.alloc());
    let mut on_bytes = Vec::new(rt.alloc());
    job(
        &mut Board::new(&mut records),
        &mut Pile::new(&mut [0u16; 6]),
        &mut Ring::new(),
        &mut on_board,
    )?;
    job(
        &mut Bytes::new(&mut bytes),
        &mut Ring::new(),
        &mut Pile::new(&mut [0u16; 2]),
        &mut on_bytes,
    )?;
    let mut differing = 0u16;
    for (board, bytes) in on_board.iter().zip(&on_bytes) {
        let alike = board.answer == bytes.answer;
        println!(rt; "{}: {board} and {bytes}", board.what)?;
        if board.of_both && !alike {
            differing = differing.wrapping_add(1);
        }
    }
    println!(rt;
        "{} steps on board memory with pile and ring, {} on byte memory with ring and pile",
        on_board.len(),
        on_bytes.len()
    )?;
    println!(rt; "{differing} differ where they should agree")
}
