//! The types that cross the whole index: parameters, vectors, asks, changes, log entries, hits and new points.
//!
//! Parameters and asks are within their limits from the moment they are made, so no crate above tests these again. A
//! vector has any length below `2^32`, and whoever takes one with an index compares it with the index's d. The
//! definitions of graphs, lists, answers and judgements, which the contracts above cite, stand in `specs/`.
#![tactic(auto)]

mod ask;
mod change;
mod entry;
mod hit;
mod new_point;
mod params;
mod vector;

pub use ask::Ask;
pub use change::Change;
pub use entry::Entry;
pub use hit::Hit;
pub use new_point::NewPoint;
pub use params::Params;
pub use vector::Vector;

/// The number of a point: each insert or replace takes the next one, so Pids rise with the order of the log.
pub type Pid = u32;

/// The name that a client gives a point.
pub type Tag = u64;
