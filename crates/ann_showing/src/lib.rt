//! The view of an index, kept up with its journal.
//!
//! What was logged waits in order until it is shown. [`show_all`] applies it to the view, one operation at a time, so that the
//! view stands for a longer and longer part of the list, and at last for all of it (the redo log of FreshDiskANN, section 5.6).
#![tactic(auto)]

mod show;

pub use show::show_all;
