ghost use Rattle.std.specs.Prelude.{◌<◌, ℕ, IfOk, IfErr};
ghost use Rattle.ann_mdelete.specs.declared.refused.WorkRefused.{WorkRefused};
ghost use Rattle.ann_mdelete.specs.declared.refused.WorkRefused.TheVariants.{Memory};

use ann_mdelete::WorkRefused;

/// Pieces of a phase side by side: as many as `count`, from `first` on.
#[derive(Clone, Copy, Debug, PartialEq, Eq)]
pub struct Stretch {
    pub phase: u8,
    pub first: u32,
    pub count: u32,
}

/// The work of a phase, piece by piece. Threads share it, and each brings a worker of its own that it works by, as an eye.
pub trait Task<W> {
    /// What a piece gives.
    type Piece: Send + Drop;

    // How many pieces there are.
    ghost count: { Self → ℕ };

    // What the piece of a number may give.
    ghost is_piece: { Self → ℕ → Self.Piece → Type 0 };

    // How a worker may come out of the work.
    ghost goes: { Self → W → W → Type 0 };

    // With which workers, before and after, the work may be refused.
    ghost causes: { Self → W → W → WorkRefused → Type 0 };

    /// Does the piece of a number.
    ///
    /// # Errors
    ///
    /// Those of the phase. The worker may do further pieces all the same.
    fn work(&self, worker: &mut W, number: u32) -> Result<Self::Piece, WorkRefused>
        requires number { number < count self.now }
        ensures piece { IfOk result (λ piece. is_piece self.now number piece) }
        ensures goes { goes self.now worker.old worker.new }
        ensures refused { IfErr result (λ why. causes self.now worker.old worker.new why) };

    // A worker that does nothing stays.
    ghost stays: { (task : Self) (worker : W) → goes task worker worker };

    // One piece and then others.
    ghost goes_on: { (task : Self) (u v w : W) → goes task u v → goes task v w → goes task u w };

    // A cause behind other pieces is a cause.
    ghost caused: { (task : Self) (u v w : W) (why : WorkRefused) → goes task u v
        → causes task v w why → causes task u w why };

    // Want of memory is free.
    ghost memory: { (task : Self) (u v : W) → goes task u v → causes task u v Memory };
}
