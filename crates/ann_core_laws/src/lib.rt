//! The core of the index as a table of events: what the log, its readers and its merges are to each other, without threads.
//!
//! `specs/` has the state, the step that each event is, the facts that every state keeps, and what a whole list of events
//! leaves. The laws below say that each event keeps these facts; that each reply is the answer of the prefix that its reader
//! has pinned; that no segment is removed which somebody may still read; that a reader's pins never go back; and that pieces
//! finished in any order seal the merged graph. `ann_core` is this table as code.
#![tactic(auto)]

mod event;
mod hits;
mod laws;
mod step;
mod steps;

pub use ann_frame::Entries as EntryList;
pub use event::Event;
pub use hits::Hits;
pub use laws::{answering, keeping, pinning, removing, sealing};
pub use step::Step;
pub use steps::Steps;
