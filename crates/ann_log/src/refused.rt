// Why a log isn't made, opened or extended.
ghost use Rattle.std.specs.Prelude.{◌≡◌};
ghost use Rattle.ann_log.specs.declared.refused.OpenWhy.TheVariants.{Disk as Unread, Memory};
ghost use Rattle.ann_log.specs.declared.refused.MakeWhy.TheVariants.{Disk as Unmade, Memory as NoMemory};

use crate::files::Files;
use ann_disk::Failed;
use std::alloc::{AllocError, AllocFailed};
use thiserror::Error;

/// A call of a file failed, and that file's count of faults rose or stands at its last value. The log is closed.
#[derive(Clone, Copy, Debug, PartialEq, Eq, Error)]
#[error("the files of the log failed")]
pub struct Disk;

/// Why a log isn't made.
#[derive(Clone, Copy, Debug, PartialEq, Eq, Error)]
pub enum MakeWhy {
    /// One of the files has a valid preamble.
    #[error("an index is there")]
    IndexThere,
    /// A call of a file failed, and that file's count of faults rose or stands at its last value.
    #[error("the files of the log failed")]
    Disk,
    /// There was no memory.
    #[error("there is no memory for the log")]
    Memory,
}

/// A log that isn't made gives its files back.
#[derive(Drop)]
pub struct MakeRefused<F> {
    /// What happened.
    pub why: MakeWhy,
    /// The files that were handed in.
    pub files: Files<F>,
}

/// Why a log isn't opened or inspected.
#[derive(Clone, Copy, Debug, PartialEq, Eq, Error)]
pub enum OpenWhy {
    /// Neither file has a valid preamble.
    #[error("no index is there")]
    NoIndex,
    /// The entry at this position is the first that isn't in the format, or isn't wholly there.
    #[error("entry {entry} of the log is bad")]
    BadLog {
        /// Counted from the base's position.
        entry: u64,
    },
    /// A call of a file failed, and that file's count of faults rose or stands at its last value.
    #[error("the files of the log failed")]
    Disk,
    /// There was no memory.
    #[error("there is no memory for the log")]
    Memory,
}

/// A log that isn't opened gives its files back.
#[derive(Drop)]
pub struct OpenRefused<F> {
    /// What happened.
    pub why: OpenWhy,
    /// The files that were handed in.
    pub files: Files<F>,
}

impl From<Failed> for OpenWhy {
    ghost from_gives = { λ _ e. e ≡ Unread };

    fn from(_failed: Failed) -> Self {
        OpenWhy::Disk
    }
}

impl From<AllocError> for OpenWhy {
    ghost from_gives = { λ _ e. e ≡ Memory };

    fn from(_error: AllocError) -> Self {
        OpenWhy::Memory
    }
}

impl<T: Drop> From<AllocFailed<T>> for OpenWhy {
    ghost from_gives = { λ _ e. e ≡ Memory };

    fn from(_error: AllocFailed<T>) -> Self {
        OpenWhy::Memory
    }
}

impl From<Failed> for MakeWhy {
    ghost from_gives = { λ _ e. e ≡ Unmade };

    fn from(_failed: Failed) -> Self {
        MakeWhy::Disk
    }
}

impl From<AllocError> for MakeWhy {
    ghost from_gives = { λ _ e. e ≡ NoMemory };

    fn from(_error: AllocError) -> Self {
        MakeWhy::Memory
    }
}

impl<T: Drop> From<AllocFailed<T>> for MakeWhy {
    ghost from_gives = { λ _ e. e ≡ NoMemory };

    fn from(_error: AllocFailed<T>) -> Self {
        MakeWhy::Memory
    }
}
