//! Judging an update: whether an index accepts its changes.
//!
//! An update is accepted or refused as a whole. Each of its changes is judged behind the list of entries and the changes
//! before it, by the definition of ann_types/specs/Judge.antt; `Standing::judge` gives exactly the first refusal, with the
//! index of its change. It reads the live tags and the next Pid alone, changes nothing, and takes no memory.
#![tactic(auto)]

mod refusal;
mod standing;

pub use refusal::Refusal;
pub use standing::Standing;
