//! Tests of the merge, phase by phase: the workers, the Delete, Insert and Patch phases, and what stands between them.
//!
//! They stand in a crate of their own, since a check of a crate's tests proves the whole crate once more.
#![tactic(auto)]

#[cfg(test)]
mod crew;
#[cfg(test)]
mod insert;
#[cfg(test)]
mod patch;
#[cfg(test)]
mod plan;
#[cfg(test)]
mod repair;
#[cfg(test)]
mod rows;
