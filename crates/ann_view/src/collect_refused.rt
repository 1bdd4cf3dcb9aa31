ghost use Rattle.std.specs.Prelude.{◌≡◌};
ghost use Rattle.ann_view.specs.declared.collect_refused.CollectRefused.TheVariants.{Disk, Memory};

use ann_vault::Failed;
use std::alloc::AllocError;
use thiserror::Error;

/// Why the live points of a view aren't collected.
#[derive(Clone, Copy, Debug, PartialEq, Eq, Error)]
pub enum CollectRefused {
    /// A read failed, and the eye's count of faults rose or stands at its last value.
    #[error("the segment can't be read")]
    Disk,
    /// The block that was read isn't in the format.
    #[error("block {block} of the segment is bad")]
    BadSegment { block: u64 },
    /// There is no memory for the points.
    #[error("no memory for the points")]
    Memory,
}

impl From<Failed> for CollectRefused {
    ghost from_gives = { λ _ e. e ≡ Disk };

    fn from(_failed: Failed) -> Self {
        CollectRefused::Disk
    }
}

impl From<AllocError> for CollectRefused {
    ghost from_gives = { λ _ e. e ≡ Memory };

    fn from(_error: AllocError) -> Self {
        CollectRefused::Memory
    }
}
