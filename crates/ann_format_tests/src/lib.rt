//! Tests of bytes: codebooks, log entries, frames, preambles and the blocks of a segment, against bytes that were worked
//! out elsewhere.
//!
//! They stand in a crate of their own, since a check of a crate's tests proves the whole crate once more.
#![tactic(auto)]

#[cfg(test)]
mod block;
#[cfg(test)]
mod bytes;
#[cfg(test)]
mod entry;
#[cfg(test)]
mod frame;
#[cfg(test)]
mod pq;
#[cfg(test)]
mod preamble;
