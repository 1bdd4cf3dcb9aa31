//! A graph in memory that stays as it is for good (a RO-TempIndex of FreshDiskANN, section 5.2).
//!
//! A table that is full is frozen: the same rows, so the same graph, walks and answers, in less memory, since no place is
//! kept for what could still come. Searches walk it, and a merge reads its points.
#![tactic(auto)]

mod frozen;
mod label;
mod packed;

pub use frozen::Frozen;
