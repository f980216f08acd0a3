// The symbol memory: tasks with registers and pools over any cell memory and any two bags.
#![tactic(auto)]

mod calls;
mod makings;
mod parts;
mod questions;
mod set_up;
mod ticket;

pub use parts::Symbols;
pub use ticket::{Ticket, Unspent};
