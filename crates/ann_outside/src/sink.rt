ghost use Rattle.std.specs.Prelude.{ℕ, ◌<◌, List, Option, length, IfOk, OnOk, OnErr};
ghost use Rattle.std.specs.Io.{WritesAtMost};
ghost use Rattle.std.specs.Io.KnownBytes.{WriteAppends, Appends};
ghost use Rattle.ann_fault.specs.Counts.{HasCause};
ghost use Rattle.ann_outside.specs.Outputs.{AppendsFront};
ghost use Rattle.ann_outside.specs.Told.{TellsStill};

use ann_fault::Failed;

/// An output of bytes.
///
/// It may tell the bytes taken so far; one that doesn't tell claims nothing of them. Its count of faults stays at
/// `2^64 - 1`.
pub trait Sink: Drop {
    ghost taken: { Self → Option (List ℕ) };

    ghost faults: { Self → ℕ };

    /// Takes bytes from the front of a piece, and gives their number: 0 of a piece that isn't empty is a fault.
    fn write(&mut self, piece: &[u8]) -> Result<usize, Failed>
        ensures bound { WritesAtMost result piece.now }
        // Of a piece that isn't empty at least one byte is taken.
        ensures some { IfOk result (λ n. 0 < length piece.now → 0 < n) }
        ensures bytes { WriteAppends (taken self.old) (taken self.new) result piece.now }
        ensures tells { TellsStill (taken self.old) (taken self.new) }
        // A failure is one fault more, and a success is none.
        ensures cause { HasCause (faults self.old) (faults self.new) result };
}

/// Writes all of the bytes, or a front of them where a write fails.
///
/// The only error is a write that failed, of which the output has taken what it took. No write follows one that failed.
pub fn write_all<K: Sink>(out: &mut K, bytes: &[u8]) -> Result<(), Failed>
    ensures ok { OnOk result (Appends (K.taken out.old) (K.taken out.new) bytes.now) }
    ensures err { OnErr result (AppendsFront (K.taken out.old) (K.taken out.new) bytes.now) }
    ensures tells { TellsStill (K.taken out.old) (K.taken out.new) }
    ensures cause { HasCause (K.faults out.old) (K.faults out.new) result }
{
    let mut at = 0;
    while at < bytes.len() {
        let taken = out.write(&bytes[at..])?;
        at += taken;
    }
    Ok(())
}
