//! What the list of a log leaves when an index is opened again: its base, its live tags, its open merge, and what the view
//! is resumed from.
//!
//! `read_list` opens the segment of the base and judges the entries on its tags. `open_merged` opens the segment of the last
//! merge that ended. `state_of` puts both together: the view begins on that segment, or on the base's where no merge has
//! ended, and its tail is what stands behind. Each call borrows what may be lost, so that a refusal leaves all of it.
#![tactic(auto)]

mod list;
mod merged;
mod refused;
mod state;

pub use list::{ListState, read_list};
pub use merged::open_merged;
pub use refused::ListRefused;
pub use state::{State, state_of};
