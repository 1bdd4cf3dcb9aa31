// Why an index isn't opened, and what a merge answers.
ghost use Rattle.std.specs.Prelude.{◌≡◌};
ghost use Rattle.ann_index.specs.declared.refusal.MergeRefused.TheVariants.{Memory as NoMemory};
ghost use Rattle.ann_index.specs.Refusals.{of_finish, of_work};

use ann_disk::LogFile;
use ann_journal::Receipt;
use ann_ledger::FinishWhy;
use ann_mdelete::WorkRefused;
use ann_recover::Parts;
use ann_vault::{Eye, Vault};
use std::alloc::AllocError;
use thiserror::Error;

/// There was no memory for the desk. The parts and the eye are as they were, and may be opened again.
#[derive(Drop)]
pub struct OpenRefused<F: LogFile, V: Vault, E: Eye<Seal = V::Seal>> {
    /// The parts of the index.
    pub parts: Parts<F, V, E>,
    /// The eye of the searches.
    pub eye: E,
}

/// A merge that ended.
#[derive(Clone, Copy, Debug, PartialEq, Eq)]
pub struct Merged {
    /// The number of the segment that now holds the long-term graph.
    pub segment: u64,
    /// The length of the list behind the merge's End.
    pub at: u64,
}

/// Why a merge isn't done. `at` is the length of the list.
#[derive(Clone, Copy, Debug, PartialEq, Eq, Error)]
pub enum MergeRefused {
    /// The log is closed, since a call of it has failed before.
    #[error("the log is closed at {at} entries")]
    Stopped { at: u64 },
    /// No merge is open, and there is nothing to merge.
    #[error("there is nothing to merge at {at} entries")]
    Nothing { at: u64 },
    /// There was no memory. A merge that has begun stays open, and a later call goes on with it.
    #[error("there is no memory for the merge")]
    Memory,
    /// A call of the log failed. The log is closed, and whether the merge's entry stands there is in doubt until it is opened
    /// again.
    #[error("the log failed")]
    LogFault,
    /// A call of the vault or of a worker's eye failed. The merge stays open, and a later call goes on with it.
    #[error("the vault failed")]
    Disk,
    /// This block of the old segment isn't in the format. The merge stays open.
    #[error("block {block} of the segment is bad")]
    BadSegment { block: u64 },
    /// The Begin or the End of the merge is logged, and there was no memory behind it; a later call goes on.
    #[error("the merge is logged up to {}, and there is no memory to show it", receipt.at)]
    MemoryLogged { receipt: Receipt },
}

impl From<WorkRefused> for MergeRefused {
    ghost from_gives = { λ refused e. e ≡ of_work refused };

    fn from(refused: WorkRefused) -> Self {
        match refused {
            WorkRefused::Disk => MergeRefused::Disk,
            WorkRefused::BadSegment { block } => MergeRefused::BadSegment { block },
            WorkRefused::Memory => MergeRefused::Memory,
        }
    }
}

impl From<FinishWhy> for MergeRefused {
    ghost from_gives = { λ refused e. e ≡ of_finish refused };

    fn from(refused: FinishWhy) -> Self {
        match refused {
            FinishWhy::Stopped { at } => MergeRefused::Stopped { at },
            FinishWhy::Memory => MergeRefused::Memory,
            FinishWhy::LogFault => MergeRefused::LogFault,
        }
    }
}

impl From<AllocError> for MergeRefused {
    ghost from_gives = { λ _ e. e ≡ NoMemory };

    fn from(_error: AllocError) -> Self {
        MergeRefused::Memory
    }
}
