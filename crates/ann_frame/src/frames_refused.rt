// Why no frames were read.
ghost use Rattle.std.specs.Prelude.{◌≡◌};
ghost use Rattle.ann_frame.specs.declared.frames_refused.FramesRefused.TheVariants.{Memory};

use std::alloc::AllocError;
use thiserror::Error;

/// Why no frames were read.
#[derive(Clone, Copy, Debug, PartialEq, Eq, Error)]
pub enum FramesRefused {
    /// The entry of this number isn't in the format, or isn't wholly there.
    #[error("entry {entry} isn't in the format")]
    Bad {
        /// Counted from 0 over all frames that were read.
        entry: u64,
    },
    /// There was no memory for the entries.
    #[error("there is no memory for the entries")]
    Memory,
}

impl From<AllocError> for FramesRefused {
    ghost from_gives = { λ _ e. e ≡ Memory };

    fn from(_: AllocError) -> Self {
        FramesRefused::Memory
    }
}
