//! The entries of a log as bytes, and back.
//!
//! An entry is a byte of its kind, who made it (4 bytes), and what its kind has besides: a tag or a segment's number
//! (8 bytes), and the components of a vector, one byte each. Numbers are little-endian. `encode` writes an entry into
//! bytes that are there, and `decode` reads the one that stands at a place, for vectors of d components. No entry's bytes
//! begin those of another, so what was written is read again, whatever follows it.
#![tactic(auto)]

mod entry_refused;
mod kind;
mod reading;
mod writing;

pub use entry_refused::EntryRefused;
pub use reading::decode;
pub use writing::{encode, size};
