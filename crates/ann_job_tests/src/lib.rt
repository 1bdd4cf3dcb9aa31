//! Tests of the merge's job: what it seals for each number of workers, pieces that wait for each other, and what is left of a
//! job that was refused; and a view over sealed segments that is opened again.
//!
//! They stand in a crate of their own, since a check of a crate's tests proves the whole crate once more.
#![tactic(auto)]

#[cfg(test)]
mod again;
#[cfg(test)]
mod index;
#[cfg(test)]
mod old;
#[cfg(test)]
mod pids;
#[cfg(test)]
mod reopened;
#[cfg(test)]
mod started;
#[cfg(test)]
mod workers;
