// A set of deleted Pids as it stood at one moment.
ghost use Rattle.std.specs.Prelude.{◌≡◌, IfOk};

use crate::dead::Dead;
use std::alloc::AllocError;
use std::marker::Model;

/// The set that a [`Dead`] had when it was pinned. It never changes.
#[derive(Drop)]
pub struct DeadPin {
    pub(crate) dead: Dead,
}

impl Model for DeadPin {
    ghost use Rattle.std.specs.Prelude.{List, ℕ};

    ghost Value = { List ℕ };

    ghost view = { λ pin. pin.dead };
}

impl Dead {
    /// The set as it stands, by one count more of each run.
    ///
    /// # Errors
    ///
    /// Only where a run has too many owners.
    pub fn pin(&self) -> Result<DeadPin, AllocError>
        ensures { IfOk result (λ pin. pin ≡ self.now) }
    {
        let dead = self.copy()?;
        Ok(DeadPin { dead })
    }
}
