//! Judging the entries of a log when an index is opened again: which of them may stand where they do, and what they leave.
//!
//! `judge` goes through the entries once, from the live tags of the base on. It needs no graph: what of a state decides which
//! entries may follow is an outline of it (specs/Outlines.antt of `ann_laws`). It gives the position of the first entry that
//! may not stand where it does, or what reopening needs of the whole list: its live tags, its next Pid, its open merge, its
//! last merge that ended, and the Pid that each entry deletes.
#![tactic(auto)]

mod basis;
mod judged;
mod judging;
mod reading;
mod shape;

pub use basis::Basis;
pub use judged::{JudgeRefused, Judged, Merge};
pub use judging::judge;
