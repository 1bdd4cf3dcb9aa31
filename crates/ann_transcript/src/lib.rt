//! The text of transcripts.
//!
//! A `Reply` is what the index answers to a command, and a `Transcript` holds exactly the text of the replies that were
//! added to it: that of specs/Transcript.antt, line after line.
#![tactic(auto)]

mod hit_list;
mod refusals;
mod replies;
mod reply;
mod transcript;

pub use hit_list::HitList;
pub use reply::{Kind, MergeWord, Reply, SearchWord, UpdateWord};
pub use transcript::Transcript;
