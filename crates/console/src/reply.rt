// What a line is answered, and what it does to the symbol memory.
ghost use Rattle.console.specs.Refusals.{number_of};
ghost use Rattle.console.specs.Replies.{numbered, Replies};

use super::building::build;
use super::refused::Refused;
use bags::Bag;
use cells::CellMemory;
use script::{LineRefusal, Request, Verb};
use symbols::Symbols;

// The answer to a line, once what it asks for is done. Each verb takes arguments of its own, so it is a match and no table of calls.
pub fn answer<'a, 'b, 'c, M: CellMemory, F: Bag, C: Bag>(
    symbols: &mut Symbols<'a, 'b, 'c, M, F, C>,
    line: Result<Request, LineRefusal>,
) -> Result<u16, Refused>
    ensures { Replies M.CellMemory F.Bag C.Bag line symbols.old symbols.new (numbered number_of result) }
{
    let request = line?;
    let [a, b, c, d] = request.numbers;
    let answer = match request.verb {
        Verb::Enter => symbols.enter(usize::from(a))?,
        Verb::Launch => symbols.launch(usize::from(a), usize::from(b), (c & 255) as u8)?,
        Verb::Leave => symbols.leave(usize::from(a))?,
        Verb::Point => symbols.point(usize::from(a), b, usize::from(c))?,
        Verb::Move => symbols.move_register(usize::from(a), usize::from(b), usize::from(c))?,
        Verb::Clear => symbols.clear_register(usize::from(a), usize::from(b))?,
        Verb::Load => symbols.load(
            usize::from(a),
            usize::from(b),
            usize::from(c),
            usize::from(d),
        )?,
        Verb::Reserve => symbols.reserve(usize::from(a))?,
        Verb::Back => symbols.give_back(usize::from(a))?,
        Verb::Build => build(symbols, usize::from(a), usize::from(b), usize::from(c))?,
        Verb::Change => symbols.change(
            usize::from(a),
            usize::from(b),
            usize::from(c),
            usize::from(d),
        )?,
        Verb::Go => u16::from(symbols.carry_on(usize::from(a))?),
        Verb::Coop => u16::from(symbols.cooperate(usize::from(a))?),
        Verb::Collect => u16::from(symbols.collect()),
        Verb::Colour => u16::from(u8::from(symbols.colour(a)?)),
    };
    Ok(answer)
}
