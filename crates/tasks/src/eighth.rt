// Numbers of slots and registers.
ghost use Rattle.std.specs.Prelude.{◌≡◌, ◌<◌};
ghost use Rattle.tasks.specs.Eighths.{below_eight};

use std::marker::Model;

// The number of a slot or of a register: there are eight of each.
#[derive(Clone, Copy, PartialEq, Eq, Debug)]
pub struct Eighth {
    number: usize,
}

// Clauses see the number.
impl Model for Eighth {
    ghost use Rattle.std.specs.Prelude.{ℕ, ◌<◌};

    ghost Value = { ℕ };

    ghost view = { λ e. e.number };

    ghost invariant = { λ e. e.number < 8 };

    ghost inverse = { λ n. record { number = n } };
}

impl Eighth {
    pub fn new(number: usize) -> Option<Eighth>
        ensures { result ≡ below_eight number }
    {
        // Not `then_some`: that makes the value first, and of a larger number there is none.
        if number < 8 {
            Some(Eighth { number })
        } else {
            None
        }
    }

    pub fn index(self) -> usize
        ensures number { result ≡ self }
        ensures below { result < 8 }
    {
        self.number
    }
}
