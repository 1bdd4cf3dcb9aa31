//! The grammar of scripts.
//!
//! `Script::read` gives exactly the clients and commands that the grammar of specs/ gives for the bytes of an input, or
//! its first line at fault. A `Filling` gives the inserts of a command `fill`, an update at a time. The program's
//! commands that read a script stand on these. What they read from and write to, and the text of their replies, come
//! along: the names of `ann_outside` and `ann_transcript`.
#![tactic(auto)]

mod change_list;
mod command;
mod draft;
mod filling;
mod generator;
mod numbers;
mod operands;
mod parse;
mod parse_refused;
mod reader;
mod script;
mod script_refused;
mod verbs;
mod words;

pub use ann_outside::{
    Failed, MemorySink, MemorySource, Sink, Source, StdSink, StdSource, write_all,
};
pub use ann_transcript::{HitList, Kind, MergeWord, Reply, SearchWord, Transcript, UpdateWord};
pub use change_list::ChangeList;
pub use command::Command;
pub use filling::Filling;
pub use numbers::number;
pub use script::Script;
pub use script_refused::ScriptRefused;
pub use verbs::Verbs;
