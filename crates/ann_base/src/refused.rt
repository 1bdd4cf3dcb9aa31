// Why a segment that a log names isn't opened.
ghost use Rattle.std.specs.Prelude.{◌≡◌};
ghost use Rattle.ann_base.specs.Refusal.{of_segment, of_work};
ghost use Rattle.ann_base.specs.declared.refused.BaseRefused.TheVariants.{Disk, Memory};

use ann_mdelete::WorkRefused;
use ann_segment::SegmentRefused;
use ann_vault::Failed;
use std::alloc::AllocError;
use thiserror::Error;

/// Why a segment that a log names isn't opened.
#[derive(Clone, Copy, Debug, PartialEq, Eq, Error)]
pub enum BaseRefused {
    /// The block at fault; 0 also where the segment isn't there.
    #[error("block {block} of the segment is bad")]
    BadSegment { block: u64 },
    /// A call of the vault or the eye failed, and its count of faults rose or stands at its last value.
    #[error("the segment can't be read")]
    Disk,
    /// There was no memory.
    #[error("there is no memory for the segment")]
    Memory,
}

impl From<Failed> for BaseRefused {
    ghost from_gives = { λ _ e. e ≡ Disk };

    fn from(_failed: Failed) -> Self {
        BaseRefused::Disk
    }
}

impl From<AllocError> for BaseRefused {
    ghost from_gives = { λ _ e. e ≡ Memory };

    fn from(_error: AllocError) -> Self {
        BaseRefused::Memory
    }
}

impl From<SegmentRefused> for BaseRefused {
    ghost from_gives = { λ refused e. e ≡ of_segment refused };

    fn from(refused: SegmentRefused) -> Self {
        match refused {
            SegmentRefused::Disk => BaseRefused::Disk,
            SegmentRefused::Memory => BaseRefused::Memory,
            SegmentRefused::BadSegment { block } => BaseRefused::BadSegment { block },
        }
    }
}

impl From<WorkRefused> for BaseRefused {
    ghost from_gives = { λ refused e. e ≡ of_work refused };

    fn from(refused: WorkRefused) -> Self {
        match refused {
            WorkRefused::Disk => BaseRefused::Disk,
            WorkRefused::BadSegment { block } => BaseRefused::BadSegment { block },
            WorkRefused::Memory => BaseRefused::Memory,
        }
    }
}
