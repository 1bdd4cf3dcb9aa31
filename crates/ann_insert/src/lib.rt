//! Inserts into the graph in memory (FreshVamana of FreshDiskANN, section 4).
//!
//! A new point is linked to what a robust prune keeps of the points that a walk to it visits, and each of these is
//! linked back. The table's graph is then exactly the one that the definition gives, and a refusal leaves it as it was.
#![tactic(auto)]

mod back;
mod insert;
mod scratch;

pub use insert::put;
pub use scratch::PutScratch;
