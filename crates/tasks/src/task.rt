// A task.
ghost use Rattle.std.specs.Prelude.{◌≡◌};

use super::eighth::Eighth;
use super::pool::Pool;
use rules::{Status, Work};

#[derive(Clone, Copy)]
pub struct Task {
    pub status: Status,
    pub(crate) registers: [Option<u16>; 8],
    pub pool: Pool,
    pub work: Option<Work>,
}

impl Task {
    ghost use Rattle.rules.specs.Tasks.{new_task};
    ghost use Rattle.tasks.specs.Parts.{task_of};

    // A task as it begins.
    pub fn new(status: Status) -> Task
        ensures { task_of result ≡ new_task status }
    {
        Task {
            status,
            registers: [None; 8],
            pool: Pool::new(),
            work: None,
        }
    }

    pub fn register(&self, a: Eighth) -> Option<u16>
        ensures { result ≡ (task_of self.now).registers a }
    {
        self.registers[a.index()]
    }
}
