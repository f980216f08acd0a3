// What is told of tasks; nothing here changes them.
ghost use Rattle.std.specs.Prelude.{◌≡◌};
ghost use Rattle.rules.specs.Questions.{status_told, pool_told, register_told};
ghost use Rattle.tasks.specs.Parts.{tasks_of};

use super::parts::{Control, register};
use rules::{Refusal, Status};

impl Control {
    // What register j of task m holds.
    pub fn register(&self, m: usize, j: usize) -> Result<Option<u16>, Refusal>
        ensures { result ≡ register_told self.now.directory (tasks_of self.now.tasks) m j }
    {
        let m = self.slot(m)?;
        let j = register(j)?;
        Ok(self.tasks.present(m)?.register(j))
    }

    // The status of task m.
    pub fn status(&self, m: usize) -> Result<Status, Refusal>
        ensures { result ≡ status_told self.now.directory (tasks_of self.now.tasks) m }
    {
        let m = self.slot(m)?;
        Ok(self.tasks.present(m)?.status)
    }

    // How many cells the pool of task m has.
    pub fn pool_count(&self, m: usize) -> Result<usize, Refusal>
        ensures { result ≡ pool_told self.now.directory (tasks_of self.now.tasks) m }
    {
        let m = self.slot(m)?;
        Ok(self.tasks.present(m)?.pool.len())
    }
}
