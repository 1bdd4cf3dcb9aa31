// Why no index is made.
ghost use Rattle.std.specs.Prelude.{◌≡◌};
ghost use Rattle.ann_init.specs.declared.refused.InitWhy.TheVariants.{Memory as NoMemory};

use std::alloc::{AllocError, AllocFailed};
use thiserror::Error;

/// How the bytes of a codebook are at fault.
#[derive(Clone, Copy, Debug, PartialEq, Eq, Error)]
pub enum BookFault {
    /// There are too few bytes for the head, or not as many as the codebook has.
    #[error("bad codebook length")]
    Length,
    /// The bytes don't begin with `ANNPQ001`.
    #[error("bad codebook magic")]
    Magic,
    /// The fields d and m aren't those of the parameters.
    #[error("bad codebook shape")]
    Shape,
}

/// Why no index is made.
#[derive(Clone, Copy, Debug, PartialEq, Eq, Error)]
pub enum InitWhy {
    /// A read of the input failed.
    #[error("read fault")]
    ReadFault,
    /// The bytes of the input are no codebook of the parameters.
    #[error("bad codebook")]
    BadBook(BookFault),
    /// One of the files has a valid preamble.
    #[error("index exists")]
    IndexThere,
    /// A call of a file failed, and that file's count of faults rose or stands at its last value.
    #[error("store fault")]
    StoreFault,
    /// There was no memory.
    #[error("memory")]
    Memory,
}

impl From<AllocError> for InitWhy {
    ghost from_gives = { λ _ e. e ≡ NoMemory };

    fn from(_error: AllocError) -> Self {
        InitWhy::Memory
    }
}

impl<T: Drop> From<AllocFailed<T>> for InitWhy {
    ghost from_gives = { λ _ e. e ≡ NoMemory };

    fn from(_error: AllocFailed<T>) -> Self {
        InitWhy::Memory
    }
}
