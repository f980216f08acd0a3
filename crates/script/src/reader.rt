ghost use Rattle.std.specs.Prelude.{◌≡◌, ◌≤◌, length, take, if◌then◌else◌};
ghost use Rattle.script.specs.Lines.{before, ended, filled, line_of, line_size, number_at, number_of};
ghost use Rattle.script.specs.Lines.{number_size, numbers_of, request_of, spaced, word_of, word_size};
ghost use Rattle.std.specs.Iterator.{at_most};
ghost use Rattle.std.specs.Option.{ok_or};

use crate::{LineRefusal, Request};

/// A reader over a text. Its place never passes the end of the text.
#[derive(Drop)]
pub struct Reader<'a> {
    text: &'a [u8],
    place: usize,
    ghost within: { place ≤ length text.now },
}

/// A part of the text, and where it begins.
#[derive(Clone, Copy)]
pub struct Word<'a> {
    pub text: &'a [u8],
    pub place: usize,
}

impl<'a> Reader<'a> {
    ghost use Rattle.script.specs.Places.{rest, Moved};

    pub fn new(text: &'a [u8]) -> Reader<'a>
        ensures text { result.text.now ≡ text.now }
        ensures place { result.place ≡ 0 }
    {
        Reader { text, place: 0 }
    }

    /// Is no line left?
    pub fn at_end(&self) -> bool
        ensures { result ≡ ended (rest self.now) }
    {
        self.place == self.text.len()
    }

    /// The bytes up to the next space, line feed or the end. They may be none.
    pub fn word(&mut self) -> Word<'a>
        ensures text { result.text.now ≡ word_of (rest self.old) }
        ensures place { result.place ≡ self.old.place }
        ensures moved { Moved (word_size (rest self.old)) self.old self.new }
    {
        self.run(b' ')
    }

    /// One space, and then a number up to the next space, line feed or the end; `BadNumbers` for anything else.
    pub fn number(&mut self) -> Result<u16, LineRefusal>
        ensures number { result ≡ ok_or (number_at (rest self.old)) LineRefusal.BadNumbers }
        ensures moved { Moved (number_size (rest self.old)) self.old self.new }
    {
        if !self.space() {
            return Err(LineRefusal::BadNumbers);
        }
        number_of(self.word().text).ok_or(LineRefusal::BadNumbers)
    }

    /// One whole line. A line that is refused is passed over too, so the next call reads the next line.
    pub fn request(&mut self) -> Result<Request, LineRefusal>
        ensures request { result ≡ request_of (line_of (rest self.old)) }
        ensures moved { Moved (line_size (rest self.old)) self.old self.new }
    {
        Request::try_from(self.line().text)
    }

    // The bytes up to the next line feed or the end. The place moves past the line feed.
    fn line(&mut self) -> Word<'a>
        ensures text { result.text.now ≡ line_of (rest self.old) }
        ensures moved { Moved (line_size (rest self.old)) self.old self.new }
    {
        let line = self.run(b'\n');
        if self.place < self.text.len() {
            self.place += 1;
        }
        line
    }

    // The bytes up to the next `stop`, line feed or the end.
    fn run(&mut self, stop: u8) -> Word<'a>
        ensures text { result.text.now ≡ take (before stop (rest self.old)) (rest self.old) }
        ensures place { result.place ≡ self.old.place }
        ensures moved { Moved (before stop (rest self.old)) self.old self.new }
    {
        let rest = &self.text[self.place..];
        let word = Word {
            text: &rest[..run_length(rest, stop)],
            place: self.place,
        };
        self.place += word.text.len();
        word
    }

    // Steps over one space, if it is the next byte.
    fn space(&mut self) -> bool
        ensures space { result ≡ spaced (rest self.old) }
        ensures moved { Moved (if result then 1 else 0) self.old self.new }
    {
        let spaced = self.text.get(self.place) == Some(&b' ');
        if spaced {
            self.place += 1;
        }
        spaced
    }

    // Exactly `count` numbers, and then the end.
    pub(crate) fn numbers(&mut self, count: usize) -> Result<[u16; 4], LineRefusal>
        requires { count ≤ 4 }
        ensures { result ≡ ok_or (filled (numbers_of count (rest self.old))) LineRefusal.BadNumbers }
    {
        let mut numbers = [0; 4];
        for number in &mut numbers[..count] {
            *number = self.number()?;
        }
        self.at_end()
            .then_some(numbers)
            .ok_or(LineRefusal::BadNumbers)
    }
}

/// The lines one by one, each as `request` reads it.
impl<'a> Iterator for Reader<'a> {
    ghost use Rattle.script.specs.Places.{rest, ReadsLine};

    type Item = Result<Request, LineRefusal>;

    ghost next_gives = { ReadsLine };

    ghost remaining = { λ reader. at_most (length (rest reader)) };

    fn next(&mut self) -> Option<Result<Request, LineRefusal>> {
        if self.at_end() {
            None
        } else {
            Some(self.request())
        }
    }
}

// How many bytes come before the first `stop`, line feed or the end.
fn run_length(text: &[u8], stop: u8) -> usize
    ensures { result ≡ before stop text.now }
{
    text.iter()
        .take_while(|byte| **byte != stop && **byte != b'\n')
        .count()
}

// The longest that a number may be.
const MOST_DIGITS: usize = 5;

fn number_of(word: &[u8]) -> Option<u16>
    ensures { result ≡ number_of word.now }
{
    if word.is_empty() || word.len() > MOST_DIGITS {
        return None;
    }
    let mut number = 0;
    for byte in word {
        number = number * 10 + char::from(*byte).to_digit(10)?;
    }
    u16::try_from(number).ok()
}
