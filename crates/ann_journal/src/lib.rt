//! The journal of an index: its log, and what is known of the log's list beside the view that shows it.
//!
//! A [`Journal`] judges updates, logs them a frame at a time, and notes what it has logged. Whoever owns it keeps the view, shows
//! each operation there in order ([`Journal::unshown`]) and says so ([`Journal::showed`]). All memory that a call needs behind its
//! append is taken before it, so that what is logged is always noted (the redo log of FreshDiskANN, section 5.6).
#![tactic(auto)]

mod entries;
mod journal;
mod logging;
mod marks;
mod refused;
mod update;

pub use journal::Journal;
pub use refused::{Receipt, Unlogged, UpdateRefused};
