//! What a run of the index says: the transcript of many clients, each of which had a thread of its own, and the list
//! that the run leaves.
//!
//! `specs/Said.antt` says it whole. Each reply is what one thread would give that folds the entries of the list one after
//! the other up to the place that the reply names (`specs/Table.antt`); a search covers all that its client saw before
//! (`specs/Seen.antt`); and the entries of each client's commands stand in the list once and in order.
//!
//! The laws are for whoever runs the commands of one client beside those of others. What a client knows of the list is
//! `Known` (`specs/Knowing.antt`), and its lines so far are right of every list that the run may leave. A law is a
//! function that does nothing, whose contract is the law.
#![tactic(auto)]

mod fills;
mod lines;
mod merges;
mod once;

pub use fills::{cutting, filled, filling};
pub use lines::{
    accepting, closing, failing, finding, judging, learning, logging, starting, stopping,
};
pub use merges::{giving_back, idling, merged, merging};
pub use once::alone;
