// What judging a list of entries gives.
ghost use Rattle.std.specs.Prelude.{◌≡◌};
ghost use Rattle.ann_reopen.specs.declared.judged.JudgeRefused.TheVariants.{Memory};

use ann_tags::Tags;
use ann_types::Pid;
use std::alloc::{AllocError, AllocFailed};
use thiserror::Error;

/// The last merge of a list that ended.
#[derive(Clone, Copy, Debug, PartialEq, Eq)]
pub struct Merge {
    /// The position of its Begin.
    pub position: u64,
    /// The position of its End.
    pub end: u64,
    /// The next Pid of the entries before its Begin.
    pub next: Pid,
    /// The segment that its End names.
    pub segment: u64,
}

/// What a legal list leaves, without its graphs.
#[derive(Drop)]
pub struct Judged {
    /// The live tags.
    pub tags: Tags,
    /// The Pid of the next point.
    pub next: Pid,
    /// The position of the open Begin, if there is one.
    pub begun: Option<u64>,
    /// The last merge that ended, if there is one.
    pub merge: Option<Merge>,
    /// For each entry the Pid that it deletes, if it deletes one.
    pub gone: Vec<Option<Pid>>,
}

/// Why a list isn't judged to be legal.
#[derive(Clone, Copy, Debug, PartialEq, Eq, Error)]
pub enum JudgeRefused {
    /// The entry at this position is the first that may not stand where it does.
    #[error("entry {entry} of the log is bad")]
    BadLog {
        /// Counted from the base's position.
        entry: u64,
    },
    /// There was no memory.
    #[error("there is no memory for the tags of the log")]
    Memory,
}

impl From<AllocError> for JudgeRefused {
    ghost from_gives = { λ _ e. e ≡ Memory };

    fn from(_error: AllocError) -> Self {
        JudgeRefused::Memory
    }
}
