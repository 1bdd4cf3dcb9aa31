// Why a merge isn't begun or ended.
ghost use Rattle.std.specs.Prelude.{◌≡◌};
ghost use Rattle.ann_ledger.specs.declared.refused.FinishWhy.TheVariants.{Memory as NoMemory};

use ann_merge::Job;
use ann_vault::{Eye, Vault};
use std::alloc::AllocError;
use thiserror::Error;

/// Why no merge may be begun now. `at` is the length of the list.
#[derive(Clone, Copy, Debug, PartialEq, Eq, Error)]
pub enum NotReady {
    /// The log is closed, since a call of it has failed before.
    #[error("the log is closed at {at} entries")]
    Stopped { at: u64 },
    /// The job of the open Begin, which stands at `since`, is out.
    #[error("a merge is running since {since}")]
    Running { since: u64, at: u64 },
}

/// Why no Begin was logged.
#[derive(Clone, Copy, Debug, PartialEq, Eq, Error)]
pub enum Unopened {
    /// There is nothing to merge in a list of this length.
    #[error("there is nothing to merge at {at} entries")]
    Nothing { at: u64 },
    /// There was no memory, and nothing is logged.
    #[error("there is no memory for the Begin")]
    Memory,
    /// A call of the log failed. The log is closed, and whether the Begin stands there is in doubt until it is opened again.
    #[error("the log failed")]
    LogFault,
}

/// Why a merge isn't ended.
#[derive(Clone, Copy, Debug, PartialEq, Eq, Error)]
pub enum FinishWhy {
    /// The log is closed, since a call of it has failed before. `at` is the length of the list.
    #[error("the log is closed at {at} entries")]
    Stopped { at: u64 },
    /// There was no memory, and nothing is logged.
    #[error("there is no memory to end the merge")]
    Memory,
    /// A call of the log failed. The log is closed, and whether the End stands there is in doubt until it is opened again.
    #[error("the log failed")]
    LogFault,
}

impl From<AllocError> for FinishWhy {
    ghost from_gives = { λ _ e. e ≡ NoMemory };

    fn from(_error: AllocError) -> Self {
        FinishWhy::Memory
    }
}

/// A merge that isn't ended, and its job, which is as it was.
#[derive(Drop)]
pub struct FinishRefused<V: Vault, E: Eye<Seal = V::Seal>> {
    pub why: FinishWhy,
    pub job: Job<V, E>,
}
