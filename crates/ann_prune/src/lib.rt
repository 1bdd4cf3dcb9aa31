//! Which candidates a point keeps as its neighbours (RobustPrune of DiskANN, section 2.2).
//!
//! A metric is anything that gives the distances between rows. Inserts prune over full vectors and merges over decoded
//! ones, by this one function.
#![tactic(auto)]

mod candidates;
mod metric;
mod robust;

pub use candidates::Candidates;
pub use metric::Metric;
pub use robust::{prune, prune_newer};
