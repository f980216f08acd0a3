// The words that a line may begin with. A new one is a variant with its place in `ALL`, its `text` and its `arity`, and
// the same in the three tables of specs/Verbs.antt, with a line in proofs/Examples.antt.
ghost use Rattle.std.specs.Prelude.{◌≡◌};
ghost use Rattle.script.specs.Lines.{fitting_numbers};
ghost use Rattle.script.specs.Verbs.{arity_of, text_of, verb_of};
ghost use Rattle.script.specs.declared.LineRefusal.TheVariants.{UnknownWord};
ghost use Rattle.std.specs.Option.{ok_or};

use crate::LineRefusal;

/// What a line calls for.
#[derive(Clone, Copy, PartialEq, Eq, Debug)]
pub enum Verb {
    Enter,
    Launch,
    Leave,
    Point,
    Move,
    Clear,
    Load,
    Reserve,
    Back,
    Build,
    Change,
    Go,
    Coop,
    Collect,
    Colour,
}

impl Verb {
    const ALL: [Verb; 15] = [
        Verb::Enter,
        Verb::Launch,
        Verb::Leave,
        Verb::Point,
        Verb::Move,
        Verb::Clear,
        Verb::Load,
        Verb::Reserve,
        Verb::Back,
        Verb::Build,
        Verb::Change,
        Verb::Go,
        Verb::Coop,
        Verb::Collect,
        Verb::Colour,
    ];

    // The first verb with this text, letter by letter.
    fn named(word: &[u8]) -> Option<Verb>
        ensures { result ≡ verb_of word.now }
    {
        // A loop, since over so many words `find` takes up to seven times as long.
        for verb in Verb::ALL {
            if word == verb.text() {
                return Some(verb);
            }
        }
        None
    }

    fn text(self) -> &'static [u8]
        ensures { result.now ≡ text_of self }
    {
        match self {
            Verb::Enter => b"enter",
            Verb::Launch => b"launch",
            Verb::Leave => b"leave",
            Verb::Point => b"point",
            Verb::Move => b"move",
            Verb::Clear => b"clear",
            Verb::Load => b"load",
            Verb::Reserve => b"reserve",
            Verb::Back => b"back",
            Verb::Build => b"build",
            Verb::Change => b"change",
            Verb::Go => b"go",
            Verb::Coop => b"coop",
            Verb::Collect => b"collect",
            Verb::Colour => b"colour",
        }
    }

    /// How many numbers follow the word: at most four.
    pub fn arity(self) -> usize
        ensures { result ≡ arity_of self }
    {
        match self {
            Verb::Collect => 0,
            Verb::Enter
            | Verb::Leave
            | Verb::Reserve
            | Verb::Back
            | Verb::Go
            | Verb::Coop
            | Verb::Colour => 1,
            Verb::Clear => 2,
            Verb::Launch | Verb::Point | Verb::Move | Verb::Build => 3,
            Verb::Load | Verb::Change => 4,
        }
    }

    /// Whether the numbers fit the word: a mask has eight bits.
    pub(crate) fn fits(self, numbers: &[u16; 4]) -> bool
        ensures { result ≡ fitting_numbers self numbers.now }
    {
        self != Verb::Launch || numbers[2] <= 255
    }
}

/// The verb with this text; `UnknownWord` where there is none.
impl<'a> TryFrom<&'a [u8]> for Verb {
    type Error = LineRefusal;

    ghost try_from_gives = { λ word verb. verb ≡ ok_or (verb_of word.now) UnknownWord };

    fn try_from(word: &'a [u8]) -> Result<Verb, LineRefusal> {
        Verb::named(word).ok_or(LineRefusal::UnknownWord)
    }
}
