//! The Delete phase of a merge (StreamingMerge of FreshDiskANN, section 5.3): each surviving row gets a list without
//! deleted rows.
//!
//! `Lists` has the neighbours of all rows of a segment and `Decoded` their decoded vectors, as all phases of a merge read
//! them. `load_piece` reads 256 rows at once, and `repair_piece` gives the new lists of those that survive; pieces can be
//! worked on side by side. What a repair gives is stated over rows; proofs/Points has the same over the Pids of a graph.
#![tactic(auto)]

mod decoded;
mod delete;
mod lists;
mod load;
mod loaded;
mod piece;
mod refused;

pub use decoded::Decoded;
pub use delete::repair;
pub use lists::Lists;
pub use load::load_piece;
pub use loaded::Loaded;
pub use piece::repair_piece;
pub use refused::WorkRefused;
