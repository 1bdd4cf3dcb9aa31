ghost use Rattle.ann_pq.specs.declared.refused.CodebookRefused.TheVariants.{Memory};
ghost use Rattle.std.specs.Prelude.{◌≡◌};

use std::alloc::AllocError;
use thiserror::Error;

/// Why bytes gave no codebook.
#[derive(Clone, Copy, Debug, PartialEq, Eq, Error)]
pub enum CodebookRefused {
    /// There are too few bytes for the head, or not as many as the codebook has.
    #[error("bad codebook length")]
    Length,
    /// The bytes don't begin with `ANNPQ001`.
    #[error("bad codebook magic")]
    Magic,
    /// The fields d and m aren't those that were asked for.
    #[error("bad codebook shape")]
    Shape,
    /// No memory was left.
    #[error("memory")]
    Memory,
}

impl From<AllocError> for CodebookRefused {
    ghost from_gives = { λ _ e. e ≡ Memory };

    fn from(_error: AllocError) -> Self {
        CodebookRefused::Memory
    }
}
