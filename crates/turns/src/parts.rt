// What a symbol memory keeps of its own, beside the memory and the bags that are lent to it.
ghost use Rattle.std.specs.Prelude.{◌≡◌, Ok, nat_lt};
ghost use Rattle.rules.specs.declared.Refusal.TheVariants.{NoSuchLink, NoSuchRegister, NoSuchSlot};
ghost use Rattle.rules.specs.SettingUp.{resting};
ghost use Rattle.rules.specs.State.{has_slot, is_register, need};

use cells::CellMemory;
use rules::{Collector, Refusal, Stage, Status, Swept};
use tasks::{Eighth, Tasks};

#[derive(Drop)]
pub struct Control {
    // how many directory cells there are; none before the set up
    pub directory: u16,
    pub tasks: Tasks,
    pub collector: Collector,
}

impl Control {
    ghost use Rattle.turns.specs.Parts.{Beginning};

    // Beside d directory cells, with no task and the collector at rest.
    pub fn new(directory: u16) -> Control
        ensures { Beginning directory result }
    {
        Control {
            directory,
            tasks: Tasks::new(),
            collector: at_rest(),
        }
    }

    // The slot of that number. There are eight, and none before the set up.
    pub(crate) fn slot(&self, m: usize) -> Result<Eighth, Refusal>
        ensures { result ≡ need (has_slot self.now.directory m) NoSuchSlot (Ok m) }
    {
        if self.directory == 0 {
            return Err(Refusal::NoSuchSlot);
        }
        Eighth::new(m).ok_or(Refusal::NoSuchSlot)
    }
}

// The register of that number.
pub(crate) fn register(a: usize) -> Result<Eighth, Refusal>
    ensures { result ≡ need (is_register a) NoSuchRegister (Ok a) }
{
    Eighth::new(a).ok_or(Refusal::NoSuchRegister)
}

// The link of that number, which every cell of the memory has.
pub(crate) fn link<M: CellMemory>(i: usize) -> Result<usize, Refusal>
    ensures { result ≡ need (nat_lt i M.CellMemory.links) NoSuchLink (Ok i) }
{
    (i < M::link_count())
        .then_some(i)
        .ok_or(Refusal::NoSuchLink)
}

// The collector as it begins.
fn at_rest() -> Collector
    ensures { result ≡ resting }
{
    Collector {
        status: Status::Async,
        phase: Status::Async,
        swept: Swept::Past,
        scanned: None,
        dirty: false,
        stage: Stage::Rest,
        next: 0,
        looked: false,
        hand: None,
    }
}
