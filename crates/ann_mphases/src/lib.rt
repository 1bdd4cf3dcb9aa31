//! The Delete phase and the Insert phase of a merge, by threads (StreamingMerge of FreshDiskANN, section 5.3).
//!
//! [`plan_merge`] reads the lists of the old long-term graph, repairs those of the points that survive, links the new
//! points, and leaves a plan for the Patch phase. Each of these is cut into pieces of 256 rows, which the workers of a crew
//! draw, and what they make stands in order of the rows. The plan is stated over rows; by the laws of `ann_mlaws` it is by
//! the Pids the merge of the definition, for every number of workers.
#![tactic(auto)]

mod grown;
mod joining;
mod left;
mod linking;
mod plan;
mod reading;
mod repairing;
mod workers;

pub use plan::{Planned, plan_merge};
