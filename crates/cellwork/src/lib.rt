// What the calls of a symbol memory do to its cells, over any cell memory and nothing else.
#![tactic(auto)]

mod changes;
mod colours;
mod links;

pub use changes::{first_step, grey_old, overflowed, warned};
pub use colours::{colour_of, grey, grey_reply, settled_colour};
pub use links::{empty_links, link_of};
