//! Tests of the graph in memory: distances, walks, prunes, inserts and frozen graphs, and the sets beside it.
//!
//! They stand in a crate of their own, since a check of a crate's tests proves the whole crate once more.
#![tactic(auto)]

#[cfg(test)]
mod claim;
#[cfg(test)]
mod dead;
#[cfg(test)]
mod frozen;
#[cfg(test)]
mod greedy;
#[cfg(test)]
mod insert;
#[cfg(test)]
mod lanes;
#[cfg(test)]
mod pool;
#[cfg(test)]
mod prune;
#[cfg(test)]
mod table;
#[cfg(test)]
mod tags;
#[cfg(test)]
mod tally;
