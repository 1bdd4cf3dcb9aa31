// Why the list of a log isn't read.
ghost use Rattle.std.specs.Prelude.{◌≡◌};
ghost use Rattle.ann_state.specs.Refusal.{of_base, of_judging};

use ann_base::BaseRefused;
use ann_reopen::JudgeRefused;
use thiserror::Error;

/// Why the list of a log isn't read.
#[derive(Clone, Copy, Debug, PartialEq, Eq, Error)]
pub enum ListRefused {
    /// The entry at this position is the first that may not stand where it does.
    #[error("entry {entry} of the log is bad")]
    BadLog {
        /// Counted from the base's position.
        entry: u64,
    },
    /// The block at fault of a segment that the log names; 0 also where the segment isn't there.
    #[error("block {block} of the segment is bad")]
    BadSegment {
        block: u64,
    },
    /// A call of the vault or the eye failed, and its count of faults rose or stands at its last value.
    #[error("the segment can't be read")]
    Disk,
    /// There was no memory.
    #[error("there is no memory for the list of the log")]
    Memory,
}

impl From<BaseRefused> for ListRefused {
    ghost from_gives = { λ refused e. e ≡ of_base refused };

    fn from(refused: BaseRefused) -> Self {
        match refused {
            BaseRefused::BadSegment { block } => ListRefused::BadSegment { block },
            BaseRefused::Disk => ListRefused::Disk,
            BaseRefused::Memory => ListRefused::Memory,
        }
    }
}

impl From<JudgeRefused> for ListRefused {
    ghost from_gives = { λ refused e. e ≡ of_judging refused };

    fn from(refused: JudgeRefused) -> Self {
        match refused {
            JudgeRefused::BadLog { entry } => ListRefused::BadLog { entry },
            JudgeRefused::Memory => ListRefused::Memory,
        }
    }
}
