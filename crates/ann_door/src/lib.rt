//! Doors: entries into what `left_right` publishes, with a count of those that are refused.
//!
//! No clause of `left_right` says when it refuses a reader, so a client enters through a door of its own, whose count
//! tells that an entry was refused. Views stay free of `left_right`; the server's passes stand on this crate.
#![tactic(auto)]

mod door;
#[cfg(test)]
mod tests;

pub use door::Door;
