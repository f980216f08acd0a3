// The words that the rules of the symbol memory are told in; the rules themselves are definitions in specs/.
#![tactic(auto)]

ghost use Rattle.std.specs.Prelude.{◌≡◌};
ghost use Rattle.rules.specs.Examples.{WorkedExamples};
ghost use Rattle.rules.specs.Refusals.{refusal_number};
ghost use Rattle.rules.specs.TurnNumbers.{turn_number};

// How far a task or the collector is with the handshake.
#[derive(Clone, Copy, PartialEq, Eq, Debug)]
pub enum Status {
    Async,
    Sync1,
    Sync2,
}

// What the collector is at.
#[derive(Clone, Copy, PartialEq, Eq, Debug)]
pub enum Stage {
    Rest,
    Clear,
    Mark,
    Scan,
    Sweep,
}

// How far the sweep is: before every cell, at one, or past them all, and so in this order.
#[derive(Clone, Copy, PartialEq, Eq, PartialOrd, Ord)]
pub enum Swept {
    Before,
    At(u16),
    Past,
}

// The cell that the collector traces from, and the link it follows next.
#[derive(Clone, Copy)]
pub struct Hand {
    pub cell: u16,
    pub link: usize,
}

#[derive(Clone, Copy)]
pub struct Collector {
    pub status: Status,
    pub phase: Status,
    pub swept: Swept,
    // the cell that the scan is at, or n where it has looked at all; none while it is before every cell
    pub scanned: Option<u16>,
    // a Grey cell may stand behind the scan
    pub dirty: bool,
    pub stage: Stage,
    // the next directory cell to blacken
    pub next: u16,
    // the cell at scanned or swept is looked at
    pub looked: bool,
    pub hand: Option<Hand>,
}

// What a turn of the collector came to.
#[derive(Clone, Copy, PartialEq, Eq, Debug)]
pub enum Turn {
    // nothing changed
    Waited = 0,
    Worked = 1,
    // it came back to Rest
    Returned = 2,
}

// What the next carry on of a change does. It is kept from turn to turn, so it is data and no closure.
#[derive(Clone, Copy)]
pub enum Step {
    // greys the new value
    Grey,
    // warns the scan of this old value
    Warn(u16),
    // writes the link
    Store,
}

// A task's unfinished work, kept from turn to turn. The parts of a change are fields of the case: of a struct of them its one user would take
// each out at once.
#[derive(Clone, Copy)]
pub enum Work {
    // link `link` of `cell` is to hold `value`
    Change {
        cell: u16,
        link: usize,
        value: Option<u16>,
        step: Step,
    },
    Making {
        cell: u16,
        settled: bool,
    },
}

// What can be asked of a symbol memory that is set up, one turn each. The letters are those of the rules: slots m and p, registers a
// and b, a link i, a directory cell j, and a ticket of m and x.
#[derive(Clone, Copy)]
pub enum Call {
    Enter {
        p: usize,
    },
    Launch {
        m: usize,
        p: usize,
        mask: u8,
    },
    Leave {
        m: usize,
    },
    Point {
        m: usize,
        j: u16,
        b: usize,
    },
    Move {
        m: usize,
        a: usize,
        b: usize,
    },
    Clear {
        m: usize,
        b: usize,
    },
    Load {
        m: usize,
        a: usize,
        i: usize,
        b: usize,
    },
    Reserve {
        m: usize,
    },
    GiveBack {
        m: usize,
    },
    Make {
        m: usize,
    },
    CarryOn {
        m: usize,
    },
    Fill {
        m: usize,
        i: usize,
        a: usize,
    },
    Finish {
        m: usize,
        x: u16,
        b: usize,
    },
    Scrap {
        m: usize,
        x: u16,
    },
    Change {
        m: usize,
        a: usize,
        i: usize,
        b: usize,
    },
    Cooperate {
        m: usize,
    },
    Collect,
}

// Why a call of the symbol memory is refused, in the order of the checks.
#[derive(Clone, Copy, PartialEq, Eq, Debug)]
pub enum Refusal {
    MemorySize = 1,
    DirectorySize = 2,
    NoSuchSlot = 3,
    NoSuchRegister = 4,
    NoSuchLink = 5,
    NoSuchDirectoryCell = 6,
    UnfitBags = 10,
    NoTask = 11,
    SlotTaken = 12,
    WorkUnfinished = 13,
    StatusBehind = 14,
    RegisterEmpty = 15,
    PoolEmpty = 16,
    PoolFull = 17,
    FreeListEmpty = 18,
    PoolNotEmpty = 19,
    NothingToCarryOn = 20,
    NoSuchMaking = 21,
    NotSettled = 22,
}

// The number by which hosts know the refusal.
impl From<Refusal> for u16 {
    ghost from_gives = { λ refusal number. number ≡ refusal_number refusal };

    fn from(refusal: Refusal) -> u16 {
        refusal as u16
    }
}

// The number that the rules give for it.
impl From<Turn> for u16 {
    ghost from_gives = { λ turn number. number ≡ turn_number turn };

    fn from(turn: Turn) -> u16 {
        turn as u16
    }
}

// The worked examples hold of the definitions.
pub fn worked_examples()
    ensures { WorkedExamples }
{}
