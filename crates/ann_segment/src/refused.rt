// Why a segment isn't written, opened or verified.
ghost use Rattle.std.specs.Prelude.{◌≡◌};
ghost use Rattle.ann_segment.specs.declared.refused.SegmentRefused.TheVariants.{Disk, Memory};
ghost use Rattle.ann_segment.specs.declared.refused.VerifyRefused.TheVariants.{Disk as Unread};

use ann_vault::Failed;
use std::alloc::AllocError;
use thiserror::Error;

/// Why a segment isn't written or opened.
#[derive(Clone, Copy, Debug, PartialEq, Eq, Error)]
pub enum SegmentRefused {
    /// A call of the vault or the eye failed, and its count of faults rose or stands at its last value.
    #[error("the segment can't be written or read")]
    Disk,
    /// There is no memory for the directory.
    #[error("no memory for the directory of the segment")]
    Memory,
    /// The first header or directory block that the format refuses.
    #[error("block {block} of the segment is bad")]
    BadSegment { block: u64 },
}

/// Why a node block isn't verified.
#[derive(Clone, Copy, Debug, PartialEq, Eq, Error)]
pub enum VerifyRefused {
    /// The eye failed, and its count of faults rose or stands at its last value.
    #[error("the segment can't be read")]
    Disk,
    /// The block that was read isn't in the format, or the code of its vector isn't the directory's.
    #[error("block {block} of the segment is bad")]
    BadSegment { block: u64 },
}

impl From<Failed> for SegmentRefused {
    ghost from_gives = { λ _ e. e ≡ Disk };

    fn from(_failed: Failed) -> Self {
        SegmentRefused::Disk
    }
}

impl From<AllocError> for SegmentRefused {
    ghost from_gives = { λ _ e. e ≡ Memory };

    fn from(_error: AllocError) -> Self {
        SegmentRefused::Memory
    }
}

impl From<Failed> for VerifyRefused {
    ghost from_gives = { λ _ e. e ≡ Unread };

    fn from(_failed: Failed) -> Self {
        VerifyRefused::Disk
    }
}
