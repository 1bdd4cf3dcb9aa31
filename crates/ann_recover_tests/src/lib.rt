//! Tests of opening an index again, of looking into it and of the command `check`, over files, vaults and eyes in memory.
//!
//! They stand in a crate of their own, since a check of a crate's tests proves the whole crate once more.
#![tactic(auto)]

#[cfg(test)]
mod check;
#[cfg(test)]
mod failing;
#[cfg(test)]
mod folder;
#[cfg(test)]
mod lists;
#[cfg(test)]
mod places;
#[cfg(test)]
mod segments;
#[cfg(test)]
mod steps;
#[cfg(test)]
mod store;
#[cfg(test)]
mod texts;
#[cfg(test)]
mod wide;
