ghost use Rattle.ann_script.specs.declared.parse_refused.ParseRefused.TheVariants.{Memory};
ghost use Rattle.std.specs.Prelude.{◌≡◌, alloc_error};

use std::alloc::{AllocError, AllocFailed};
use thiserror::Error;

/// Why a line gave no command.
#[derive(Debug, Drop, Error)]
pub enum ParseRefused {
    /// The line is outside the grammar.
    #[error("the line is outside the grammar")]
    Fault,
    /// No memory was left.
    #[error("no memory is left")]
    Memory(AllocError),
}

impl From<AllocError> for ParseRefused {
    ghost from_gives = { λ _ e. e ≡ Memory alloc_error };

    fn from(error: AllocError) -> Self {
        ParseRefused::Memory(error)
    }
}

impl<T: Drop> From<AllocFailed<T>> for ParseRefused {
    ghost from_gives = { λ _ e. e ≡ Memory alloc_error };

    fn from(_error: AllocFailed<T>) -> Self {
        ParseRefused::Memory(AllocError)
    }
}
