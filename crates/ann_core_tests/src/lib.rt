//! Tests of the core: events and what each of them comes to.
//!
//! They stand in a crate of their own, since a check of a crate's tests proves the whole crate once more.
#![tactic(auto)]

#[cfg(test)]
mod events;
#[cfg(test)]
mod tables;
