// Why segments aren't removed.
ghost use Rattle.std.specs.Prelude.{◌≡◌};
ghost use Rattle.ann_resume.specs.Refusal.{refusal_of};
ghost use Rattle.ann_resume.specs.declared.refused.RemoveRefused.TheVariants.{Disk};

use ann_vault::{Failed, NumbersRefused};
use thiserror::Error;

/// Why segments aren't removed.
#[derive(Clone, Copy, Debug, PartialEq, Eq, Error)]
pub enum RemoveRefused {
    /// A call of the vault failed, and its count of faults rose or stands at its last value.
    #[error("the vault failed")]
    Disk,
    /// There was no memory.
    #[error("there is no memory for the numbers of the vault")]
    Memory,
}

impl From<Failed> for RemoveRefused {
    ghost from_gives = { λ _ e. e ≡ Disk };

    fn from(_failed: Failed) -> Self {
        RemoveRefused::Disk
    }
}

impl From<NumbersRefused> for RemoveRefused {
    ghost from_gives = { λ refused e. e ≡ refusal_of refused };

    fn from(refused: NumbersRefused) -> Self {
        match refused {
            NumbersRefused::Failed => RemoveRefused::Disk,
            NumbersRefused::Memory(_) => RemoveRefused::Memory,
        }
    }
}
