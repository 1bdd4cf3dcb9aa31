//! The live tags of an index, each with the Pid of its point.
//!
//! A `Tags` is a finite map from tag to Pid. Room is reserved before, so that an insert takes no memory and can't be
//! refused once its entry stands in the log.
#![tactic(auto)]

mod tags;

pub use tags::Tags;
