// The console: a script from standard input, one call a line, and what each line is answered.
#![tactic(auto)]

use bags::{Bag, Pile, Ring};
use cells::{Board, CellRecord};
use reply::answer;
use script::Reader;
use std::io;
use std::io::Read;
use symbols::Symbols;

mod building;
mod refused;
mod reply;

// The longest script that is read.
const MOST_BYTES: u64 = 65536;

// A blank cell record: Blue, its links empty.
const BLANK: CellRecord = CellRecord {
    colour: 0,
    links: [65535; 4],
};

fn main(rt: HostRuntime) -> io::Result<()> {
    let mut text = Vec::new(rt.alloc());
    rt.stdin().take(MOST_BYTES).read_to_end(&mut text)?;
    let mut records = [BLANK; 16];
    let mut row = [0u16; 16];
    let mut board = Board::new(&mut records);
    let mut pile = Pile::new(&mut row);
    let mut ring = Ring::new();
    let mut symbols = Symbols::over(&mut board, &mut pile, &mut ring);
    let _ = symbols.set_up(1);
    for line in Reader::new(text.as_slice()) {
        match answer(&mut symbols, line) {
            Ok(number) => println!(rt; "ok {number}")?,
            Err(refusal) => println!(rt; "no {refusal}")?,
        }
    }
    Ok(())
}
