// Why a line of a script is refused, by whichever part refuses it.
ghost use Rattle.std.specs.Prelude.{◌≡◌, Some};
ghost use Rattle.std.specs.Fmt.{decimal};
ghost use Rattle.console.specs.declared.refused.Refused.TheVariants.{Line, Call, Cell};
ghost use Rattle.console.specs.Refusals.{number_of};

use cells::MemoryRefusal;
use rules::Refusal;
use script::LineRefusal;
use std::fmt;

#[derive(Clone, Copy, PartialEq, Eq, Debug)]
pub enum Refused {
    Line(LineRefusal),
    Call(Refusal),
    Cell(MemoryRefusal),
}

impl From<LineRefusal> for Refused {
    ghost from_gives = { λ refusal refused. refused ≡ Line refusal };

    fn from(refusal: LineRefusal) -> Refused {
        Refused::Line(refusal)
    }
}

impl From<Refusal> for Refused {
    ghost from_gives = { λ refusal refused. refused ≡ Call refusal };

    fn from(refusal: Refusal) -> Refused {
        Refused::Call(refusal)
    }
}

impl From<MemoryRefusal> for Refused {
    ghost from_gives = { λ refusal refused. refused ≡ Cell refusal };

    fn from(refusal: MemoryRefusal) -> Refused {
        Refused::Cell(refusal)
    }
}

impl From<Refused> for u16 {
    ghost from_gives = { λ refused number. number ≡ number_of refused };

    fn from(refused: Refused) -> u16 {
        match refused {
            Refused::Line(refusal) => u16::from(refusal),
            Refused::Call(refusal) => u16::from(refusal),
            Refused::Cell(refusal) => u16::from(refusal),
        }
    }
}

// The number alone, as a reply gives it.
impl fmt::Display for Refused {
    ghost output = { λ refused. Some (decimal (number_of refused)) };

    fn fmt<W: fmt::Write>(&self, f: &mut fmt::Formatter<W>) -> fmt::Result {
        write!(f, "{}", u16::from(*self))
    }
}
