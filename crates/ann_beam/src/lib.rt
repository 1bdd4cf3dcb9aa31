//! The search of a segment on the disk, some blocks at a time (BeamSearch of DiskANN, section 3.3).
//!
//! A `Desk` holds all that a search works with, made once, so that no search takes memory. Its ranking has the nearest
//! points that were found so far, by exact distance and Pid. `beam` walks through a segment by guided distances, in
//! rounds, reads the block of each point that it visits once, and ranks those that aren't deleted by their full vectors.
#![tactic(auto)]

mod candidates;
mod course;
mod desk;
mod rank;
mod ranking;
mod refused;
mod rounds;
mod search;
mod visit;

pub use desk::Desk;
pub use ranking::Ranking;
pub use refused::SearchRefused;
pub use search::beam;
