ghost use Rattle.std.specs.Prelude.{◌≡◌};
ghost use Rattle.ann_mdelete.specs.declared.refused.WorkRefused.TheVariants.{Disk, Memory};

use ann_vault::Failed;
use std::alloc::AllocError;
use thiserror::Error;

/// Why a row or a piece of a merge isn't done.
#[derive(Clone, Copy, Debug, PartialEq, Eq, Error)]
pub enum WorkRefused {
    /// The eye failed, and its count of faults rose or stands at its last value.
    #[error("the segment can't be read")]
    Disk,
    /// The first block that was read and isn't in the format.
    #[error("block {block} of the segment is bad")]
    BadSegment { block: u64 },
    /// There is no memory.
    #[error("no memory for the merge")]
    Memory,
}

impl From<Failed> for WorkRefused {
    ghost from_gives = { λ _ e. e ≡ Disk };

    fn from(_failed: Failed) -> Self {
        WorkRefused::Disk
    }
}

impl From<AllocError> for WorkRefused {
    ghost from_gives = { λ _ e. e ≡ Memory };

    fn from(_error: AllocError) -> Self {
        WorkRefused::Memory
    }
}
