ghost use Rattle.std.specs.Prelude.{◌≡◌, alloc_error};
ghost use Rattle.ann_entry.specs.declared.entry_refused.EntryRefused.TheVariants.{Memory};

use std::alloc::AllocError;
use thiserror::Error;

/// Why no entry was read.
#[derive(Debug, Drop, Error)]
pub enum EntryRefused {
    /// The byte at the place is the kind of no entry.
    #[error("no entry has this kind")]
    Kind,
    /// The bytes end within the entry.
    #[error("the bytes end within an entry")]
    Short,
    /// There was no memory for the entry's vector.
    #[error("there is no memory for an entry")]
    Memory(AllocError),
}

impl From<AllocError> for EntryRefused {
    ghost from_gives = { λ _ e. e ≡ Memory alloc_error };

    fn from(error: AllocError) -> Self {
        EntryRefused::Memory(error)
    }
}
