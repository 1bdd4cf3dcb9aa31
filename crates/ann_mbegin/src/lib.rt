//! The merge of an open Begin (StreamingMerge of FreshDiskANN, section 5.3): what it takes from a view, how long that is
//! what it should take, and what its segment is when it ends.
//!
//! [`MergeInput`] is taken from a view once and becomes a job that can't be refused. The laws say that it stays the input of
//! the list's merge while the list grows, and that the segment that the job makes may end that merge.
#![tactic(auto)]

mod input;
mod laws;

pub use input::MergeInput;
pub use laws::{ending, lasting, lasting_all, numbering};
