//! The job of a merge (StreamingMerge of FreshDiskANN, section 5.3): it holds all that a merge needs, and is worked beside
//! the searches, by one thread or several.
//!
//! A [`Job`] takes the vault, the eyes of the workers, the old segment, the frozen graphs and the deleted points of its
//! Begin. [`Job::work`] plans the merged graph (`ann_mphases`) and seals it as the next segment (`ann_mseal`). The bytes
//! that it seals don't depend on the number of workers or on how they interleave. After a refusal the job keeps all its
//! parts and may be worked again.
#![tactic(auto)]

mod aside;
mod clear;
mod gather;
mod job;
mod merging;
mod parts;
mod pour;

pub use ann_crew::{Gate, NoGate, Spot};
pub use job::Job;
pub use parts::JobParts;
