ghost use Rattle.std.specs.Prelude.{◌≡◌, IfOk};

use ann_dead::Dead;
use std::alloc::AllocError;
use std::marker::Model;

/// A merge that has begun: the position of its Begin, how many of the frozen graphs it takes, counted from the oldest,
/// and the deleted points that it takes out.
#[derive(Drop)]
pub(crate) struct OpenMerge {
    position: u64,
    frozen: usize,
    gone: Dead,
}

impl Model for OpenMerge {
    ghost use Rattle.ann_types.specs.Fold.{Begun};

    ghost Value = { Begun };

    ghost view = { λ m. record { position = m.position; frozen = m.frozen; gone = m.gone } };
}

impl OpenMerge {
    pub(crate) fn new(position: u64, frozen: usize, gone: Dead) -> OpenMerge
        ensures { result ≡ record { position = position; frozen = frozen; gone = gone } }
    {
        OpenMerge {
            position,
            frozen,
            gone,
        }
    }

    /// How many frozen graphs the merge takes.
    pub(crate) fn frozen(&self) -> usize
        ensures { result ≡ self.now.frozen }
    {
        self.frozen
    }

    /// The deleted points that the merge takes out.
    pub(crate) fn gone(&self) -> &Dead
        ensures { result.now ≡ self.now.gone }
    {
        &self.gone
    }

    /// The same once more. The only error is want of memory.
    pub(crate) fn copy(&self) -> Result<OpenMerge, AllocError>
        ensures { IfOk result (λ copy. copy ≡ self.now) }
    {
        Ok(OpenMerge {
            position: self.position,
            frozen: self.frozen,
            gone: self.gone.copy()?,
        })
    }
}
