//! The command `once`: a script of one client, served by an index in memory.
//!
//! `transcript_of` gives exactly the transcript that specs/Once.antt names for a script: each update judged as a whole by
//! the list so far, each search answered by the definition of an answer. Every tag that a search tells is live at the
//! list that its reply names, which is a law of that definition (specs/Live.antt).
#![tactic(auto)]

mod book;
mod once;
mod session;

pub use once::transcript_of;
