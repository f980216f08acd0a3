// The calls of tasks on the parts of a symbol memory that they touch: the checks of a call, by rising number, and then what it does.
// Each shows its own checks, also where two calls begin alike. The rules give every call a number for an answer, 0 where they name none, and
// that is what it answers; a yes or no is a `bool`.
#![tactic(auto)]

mod changes;
mod handshake;
mod makings;
mod parts;
mod pools;
mod questions;
mod registers;

pub use parts::Control;
