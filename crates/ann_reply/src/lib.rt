//! The replies to updates and searches, which all commands that serve a script say.
//!
//! `accepted` is the reply to an update that was accepted, `word_of` the word of one that was refused, and `copied` the
//! hits of a search as a reply owns them: those of specs/Reply.antt.
#![tactic(auto)]

mod reply;

pub use reply::{accepted, copied, word_of};
