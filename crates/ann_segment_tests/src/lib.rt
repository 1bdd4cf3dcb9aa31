//! Tests of vaults, segments and searches: segments that are written, changed, read in pieces and searched, and views over
//! them.
//!
//! They stand in a crate of their own, since a check of a crate's tests proves the whole crate once more.
#![tactic(auto)]

#[cfg(test)]
mod beam;
#[cfg(test)]
mod collect;
#[cfg(test)]
mod patched;
#[cfg(test)]
mod pieces;
#[cfg(test)]
mod points;
#[cfg(test)]
mod segment;
#[cfg(test)]
mod vault;
#[cfg(test)]
mod view;
