//! The end of a merge: its Patch phase, piece by piece side by side, and the sealing of the merged segment
//! (StreamingMerge of FreshDiskANN, section 5.3).
//!
//! [`seal_merge`] writes the header and the directory of the merged rows, then their node blocks, and seals the whole. The
//! blocks are made a window of pieces at a time, so that only a few of them are in memory. Where the seals tell, what is
//! sealed is the text of the merged graph of the definition.
#![tactic(auto)]

mod front;
mod seal;
mod window;
mod writing;

pub use seal::seal_merge;
