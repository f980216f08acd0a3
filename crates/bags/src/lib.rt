// Bags of 16-bit numbers, in which a number may stand more than once.
#![tactic(auto)]

ghost use Rattle.std.specs.Prelude.{◌≡◌, length};
ghost use Rattle.bags.specs.Holding.{Hold, Sound, put_answer, put_into, take_answer, taken_from};
ghost use Rattle.bags.specs.Refusals.{bag_refusal_number};

mod pile;
mod ring;

pub use pile::Pile;
pub use ring::Ring;

#[derive(Clone, Copy, PartialEq, Eq, Debug)]
pub enum BagRefusal {
    Full = 23,
    Empty = 24,
}

// The number by which hosts know the refusal.
impl From<BagRefusal> for u16 {
    ghost from_gives = { λ refusal number. number ≡ bag_refusal_number refusal };

    fn from(refusal: BagRefusal) -> u16 {
        refusal as u16
    }
}

pub trait Bag {
    // the members, the room and the manner
    ghost means: { Self → Hold };

    ghost sound: { (s : Self) → Sound (means s) };

    // what the host lent
    ghost Spare: { Type 0 };

    ghost spare: { Self → Spare };

    fn count(&self) -> usize
        ensures { result ≡ length (means self.now).members };

    fn capacity(&self) -> usize
        ensures { result ≡ (means self.now).room };

    // Its clauses and those of take stay apart: in one relation each call would name five terms, and read no plainer.
    fn put(&mut self, x: u16) -> Result<(), BagRefusal>
        ensures answer { result ≡ put_answer (means self.old) }
        ensures after { means self.new ≡ put_into (means self.old) x }
        ensures rest { spare self.new ≡ spare self.old };

    fn take(&mut self) -> Result<u16, BagRefusal>
        ensures answer { result ≡ take_answer (means self.old) }
        ensures after { means self.new ≡ taken_from (means self.old) }
        ensures rest { spare self.new ≡ spare self.old };
}
