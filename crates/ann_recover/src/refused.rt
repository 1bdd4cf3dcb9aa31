// Why an index isn't opened again.
ghost use Rattle.std.specs.Prelude.{◌≡◌};
ghost use Rattle.ann_recover.specs.Refusal.{of_open, of_list, of_remove, of_verify};
ghost use Rattle.ann_recover.specs.declared.refused.RecoverWhy.TheVariants.{Disk as Unread, Memory};

use ann_log::{Disk, Files, OpenWhy};
use ann_resume::RemoveRefused;
use ann_segment::VerifyRefused;
use ann_state::ListRefused;
use std::alloc::AllocError;
use thiserror::Error;

/// Why an index isn't opened again.
#[derive(Clone, Copy, Debug, PartialEq, Eq, Error)]
pub enum RecoverWhy {
    /// Neither file has a valid preamble.
    #[error("no index is there")]
    NoIndex,
    /// The entry at this position is the first that isn't in the format or isn't wholly there; or, where every entry is, the
    /// first that may not stand where it does.
    #[error("entry {entry} of the log is bad")]
    BadLog {
        /// Counted from the base's position.
        entry: u64,
    },
    /// The block at fault of a segment that the log names; 0 also where the segment isn't there.
    #[error("block {block} of the segment is bad")]
    BadSegment {
        block: u64,
    },
    /// A call of the log, the vault or the first eye failed, and its count of faults rose or stands at its last value.
    #[error("the store failed")]
    Disk,
    /// There was no memory.
    #[error("there is no memory for the index")]
    Memory,
}

/// An index that isn't opened again gives its parts back.
#[derive(Drop)]
pub struct RecoverRefused<F: Drop, V: Drop, E: Drop> {
    /// What happened.
    pub why: RecoverWhy,
    /// The files that were handed in.
    pub files: Files<F>,
    /// The vault that was handed in.
    pub vault: V,
    /// The eyes that were handed in.
    pub eyes: Vec<E>,
}

impl From<OpenWhy> for RecoverWhy {
    ghost from_gives = { λ refused e. e ≡ of_open refused };

    fn from(refused: OpenWhy) -> Self {
        match refused {
            OpenWhy::NoIndex => RecoverWhy::NoIndex,
            OpenWhy::BadLog { entry } => RecoverWhy::BadLog { entry },
            OpenWhy::Disk => RecoverWhy::Disk,
            OpenWhy::Memory => RecoverWhy::Memory,
        }
    }
}

impl From<ListRefused> for RecoverWhy {
    ghost from_gives = { λ refused e. e ≡ of_list refused };

    fn from(refused: ListRefused) -> Self {
        match refused {
            ListRefused::BadLog { entry } => RecoverWhy::BadLog { entry },
            ListRefused::BadSegment { block } => RecoverWhy::BadSegment { block },
            ListRefused::Disk => RecoverWhy::Disk,
            ListRefused::Memory => RecoverWhy::Memory,
        }
    }
}

impl From<RemoveRefused> for RecoverWhy {
    ghost from_gives = { λ refused e. e ≡ of_remove refused };

    fn from(refused: RemoveRefused) -> Self {
        match refused {
            RemoveRefused::Disk => RecoverWhy::Disk,
            RemoveRefused::Memory => RecoverWhy::Memory,
        }
    }
}

impl From<VerifyRefused> for RecoverWhy {
    ghost from_gives = { λ refused e. e ≡ of_verify refused };

    fn from(refused: VerifyRefused) -> Self {
        match refused {
            VerifyRefused::Disk => RecoverWhy::Disk,
            VerifyRefused::BadSegment { block } => RecoverWhy::BadSegment { block },
        }
    }
}

impl From<Disk> for RecoverWhy {
    ghost from_gives = { λ _ e. e ≡ Unread };

    fn from(_failed: Disk) -> Self {
        RecoverWhy::Disk
    }
}

impl From<AllocError> for RecoverWhy {
    ghost from_gives = { λ _ e. e ≡ Memory };

    fn from(_error: AllocError) -> Self {
        RecoverWhy::Memory
    }
}
