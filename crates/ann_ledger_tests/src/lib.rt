//! Tests of what an index keeps beside its log and its view: the vault and the eyes of its merges, and retired segments.
//!
//! They stand in a crate of their own, since a check of a crate's tests proves the whole crate once more.
#![tactic(auto)]

#[cfg(test)]
mod begun;
#[cfg(test)]
mod line;
#[cfg(test)]
mod stock;
