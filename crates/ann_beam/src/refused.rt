ghost use Rattle.std.specs.Prelude.{◌≡◌};
ghost use Rattle.ann_beam.specs.declared.refused.SearchRefused.TheVariants.{Disk};

use ann_vault::Failed;
use thiserror::Error;

/// Why a search gives no answer.
#[derive(Clone, Copy, Debug, PartialEq, Eq, Error)]
pub enum SearchRefused {
    /// The query hasn't as many components as the vectors of the index.
    #[error("the query has {got} components, and the index has {want}")]
    Dimension { got: u32, want: u32 },
    /// The eye failed, and its count of faults rose or stands at its last value.
    #[error("the segment can't be read")]
    Disk,
    /// The block that was read isn't in the format.
    #[error("block {block} of the segment is bad")]
    BadSegment { block: u64 },
    /// The view of the index let nobody in.
    #[error("the index is shut")]
    Shut,
}

impl From<Failed> for SearchRefused {
    ghost from_gives = { λ _ e. e ≡ Disk };

    fn from(_failed: Failed) -> Self {
        SearchRefused::Disk
    }
}
