// The tasks of a symbol memory: eight slots, and in each a task with its registers, its pool and its unfinished work, or none.
#![tactic(auto)]

mod agreement;
mod eighth;
mod pool;
mod slots;
mod task;

pub use eighth::Eighth;
pub use pool::Pool;
pub use slots::Tasks;
pub use task::Task;
