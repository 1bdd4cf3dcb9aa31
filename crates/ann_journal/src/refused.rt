// Why a call of an index is refused.
ghost use Rattle.std.specs.Prelude.{◌≡◌};
ghost use Rattle.ann_journal.specs.declared.refused.Unlogged.TheVariants.{Memory as NoRoom};
ghost use Rattle.ann_journal.specs.declared.refused.UpdateRefused.TheVariants.{Memory as NoMemory};

use ann_types::Tag;
use std::alloc::AllocError;
use thiserror::Error;

/// What was logged: the length of the list behind it.
#[derive(Clone, Copy, Debug, PartialEq, Eq)]
pub struct Receipt {
    pub at: u64,
}

/// Why an update is refused. An index counts from 0, and `at` is the length of the list that it was judged by.
#[derive(Clone, Copy, Debug, PartialEq, Eq, Error)]
pub enum UpdateRefused {
    /// The log is closed, since a call of it has failed before.
    #[error("the log is closed at {at} entries")]
    Stopped {
        at: u64,
    },
    /// The vector of this change has `got` components in place of `want`.
    #[error("change {index} has {got} components of {want}")]
    Dimension {
        index: u32,
        got: u32,
        want: u32,
        at: u64,
    },
    /// There is no Pid for the point of this change.
    #[error("there is no room for change {index}")]
    Full {
        index: u32,
        at: u64,
    },
    /// The tag of this insert is live.
    #[error("change {index} inserts the tag {tag}, which is there")]
    Present {
        index: u32,
        tag: Tag,
        at: u64,
    },
    /// The tag of this delete or replace isn't live.
    #[error("change {index} names the tag {tag}, which isn't there")]
    Absent {
        index: u32,
        tag: Tag,
        at: u64,
    },
    /// There was no memory, and nothing is logged.
    #[error("there is no memory for the update")]
    Memory,
    /// A call of the log failed. The log is closed, and whether the update stands there is in doubt until it is opened again.
    #[error("the log failed")]
    LogFault,
    /// The update is logged, and there was no memory to show it; a later call does.
    #[error("the update is logged, and there is no memory to show it")]
    MemoryLogged {
        receipt: Receipt,
    },
}

impl From<AllocError> for UpdateRefused {
    ghost from_gives = { λ _ e. e ≡ NoMemory };

    fn from(_error: AllocError) -> Self {
        UpdateRefused::Memory
    }
}

/// Why entries weren't logged.
#[derive(Clone, Copy, Debug, PartialEq, Eq, Error)]
pub enum Unlogged {
    /// There was no memory to note them, and nothing is logged.
    #[error("there is no memory for the entries")]
    Memory,
    /// A call of the log failed. The log is closed, and whether they stand there is in doubt until it is opened again.
    #[error("the log failed")]
    Fault,
}

impl From<AllocError> for Unlogged {
    ghost from_gives = { λ _ e. e ≡ NoRoom };

    fn from(_error: AllocError) -> Self {
        Unlogged::Memory
    }
}
