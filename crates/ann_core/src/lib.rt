//! The core of the index: what its log, its readers and its merges are to each other, one atomic action after the other.
//!
//! A [`Core`] is the table of events of `ann_core_laws` as code. It keeps the logged list, the pins of 32 readers, the finished
//! pieces of the open merge and the bytes of the kept segments. The answer of a pinned prefix is found as an index that is
//! opened again finds it: the prefix is judged, the segment of its last End is opened, the view is resumed behind that merge's
//! Begin, and the view is searched. A merge is made by the job that a running server works. Whatever the list of events,
//! [`Core::run`] gives the steps of the definition, whose laws stand in `ann_core_laws`.
#![tactic(auto)]

mod core_type;
mod ends;
mod frames;
mod kept;
mod making;
mod merging;
mod prefix;
mod readers;
mod removal;
mod state;
mod stepping;

pub use ann_core_laws::{EntryList, Event, Hits, Step, Steps};
pub use core_type::Core;
