// The reader of the console's scripts, for any bytes. A line is one call: a word, and then decimal numbers of one to
// five digits, each after exactly one space. A line ends in a line feed, which the last line may lack.
#![tactic(auto)]

ghost use Rattle.std.specs.Prelude.{◌≡◌};
ghost use Rattle.script.specs.Lines.{refusal_number, request_of};

mod reader;
mod words;

pub use reader::{Reader, Word};
pub use words::Verb;

/// Why a line is refused. The word is judged before the numbers.
#[derive(Clone, Copy, PartialEq, Eq, Debug)]
pub enum LineRefusal {
    /// The word is none of the verbs.
    UnknownWord = 7,
    /// A number is missing, too many, malformed or above 65,535, or a mask above 255.
    BadNumbers = 8,
}

impl From<LineRefusal> for u16 {
    ghost from_gives = { λ refusal number. number ≡ refusal_number refusal };

    fn from(refusal: LineRefusal) -> u16 {
        refusal as u16
    }
}

/// What a line asks for. `move 2 0 7` has the numbers 2, 0, 7 and 0: those that the verb does not take are 0.
// One array for every verb is plainer: an enum with the numbers in its variants would list the verbs a second time.
#[derive(Clone, Copy, PartialEq, Eq, Debug)]
pub struct Request {
    pub verb: Verb,
    pub numbers: [u16; 4],
}

/// One line, without its line feed.
impl<'a> TryFrom<&'a [u8]> for Request {
    type Error = LineRefusal;

    ghost try_from_gives = { λ line request. request ≡ request_of line.now };

    // The line has a reader of its own, so its numbers cannot go on into the next line.
    fn try_from(line: &'a [u8]) -> Result<Request, LineRefusal> {
        let mut reader = Reader::new(line);
        let verb = Verb::try_from(reader.word().text)?;
        let numbers = reader.numbers(verb.arity())?;
        if !verb.fits(&numbers) {
            return Err(LineRefusal::BadNumbers);
        }
        Ok(Request { verb, numbers })
    }
}
