ghost use Rattle.std.specs.Prelude.{◌≡◌, alloc_error};
ghost use Rattle.ann_script.specs.declared.script_refused.ScriptRefused.TheVariants.{Memory};

use std::alloc::AllocError;
use thiserror::Error;

/// Why a script wasn't read.
#[derive(Debug, Drop, Error)]
pub enum ScriptRefused {
    /// This line, counted from 1, is the first at fault.
    #[error("line {number}")]
    Line { number: u64 },
    /// A read failed before a line at fault.
    #[error("read fault")]
    Failed,
    /// No memory was left.
    #[error("memory")]
    Memory(AllocError),
}

impl From<AllocError> for ScriptRefused {
    ghost from_gives = { λ _ e. e ≡ Memory alloc_error };

    fn from(error: AllocError) -> Self {
        ScriptRefused::Memory(error)
    }
}
