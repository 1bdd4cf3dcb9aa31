//! Tests of the log and of its files: changed and cut files, calls that fail, and what a stop at each call leaves.
//!
//! They stand in a crate of their own, since a check of a crate's tests proves the whole crate once more.
#![tactic(auto)]

#[cfg(test)]
mod appending;
#[cfg(test)]
mod disk;
#[cfg(test)]
mod frames;
#[cfg(test)]
mod inspecting;
#[cfg(test)]
mod making;
#[cfg(test)]
mod opening;
#[cfg(test)]
mod preambles;
#[cfg(test)]
mod renewing;
#[cfg(test)]
mod texts;
