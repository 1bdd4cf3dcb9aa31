//! What a merge prepares and puts together between its phases (StreamingMerge of FreshDiskANN, section 5.3).
//!
//! `read_lists`, `decode_rows` and `deleted_rows` give what the Delete phase reads of the old long-term graph. A `Packing`
//! names its survivors by their ranks, which are their rows in the merged graph, and gives their lists and vectors by these.
//! `invert` gives for each row of the base the later rows that it is linked back to. No thread is known here. What each
//! gives is stated over rows; proofs/Standing, proofs/Packed and proofs/Deltas have the same over the Pids of graphs.
#![tactic(auto)]

mod back;
mod old;
mod packing;

pub use back::invert;
pub use old::{add_lists, decode_rows, deleted_rows, read_lists};
pub use packing::Packing;
