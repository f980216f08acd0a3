// Examples of the byte layout, of the smallest and largest sizes, of malformed scripts, of each refusal, of the shapes of a change, of
// the collector's cycle, and of its parts in other hands, each run as a test.
#![tactic(auto)]

#[cfg(test)]
mod cycles;
#[cfg(test)]
mod memories;
#[cfg(test)]
mod parts;
#[cfg(test)]
mod refusals;
#[cfg(test)]
mod scripts;
#[cfg(test)]
mod sizes;
#[cfg(test)]
mod tickets;
