// Reading what is sealed.
ghost use Rattle.std.specs.Prelude.{◌≡◌, ◌+◌, ◌≤◌, ℕ, length, slice_range, OnOk, OnErr, IfOk};
ghost use Rattle.ann_fault.specs.Counts.{HasCause, next_count};

use crate::{Failed, Sealed};

/// Reads the bytes of seals, and counts its reads.
pub trait Eye: Drop {
    type Seal: Sealed;

    /// How often a call has failed. The count stays at 2^64 - 1.
    ghost faults: { Self → ℕ };

    /// How often a read has gone well. The count stays at 2^64 - 1.
    ghost reads: { Self → ℕ };

    /// The number of bytes of a seal.
    fn length(&mut self, of: &Self::Seal) -> Result<u64, Failed>
        ensures value { Self.Seal.tells → IfOk result (λ n. n ≡ length (Self.Seal.bytes of.now)) }
        ensures reads { reads self.new ≡ reads self.old }
        ensures cause { HasCause (faults self.old) (faults self.new) result };

    /// Reads the bytes from a place on into the whole of a buffer. Where the seal doesn't tell, a read beyond its end fails.
    fn read(&mut self, of: &Self::Seal, at: u64, buf: &mut [u8]) -> Result<(), Failed>
        requires { Self.Seal.tells → at + length buf.old ≤ length (Self.Seal.bytes of.now) }
        ensures bytes { Self.Seal.tells →
            OnOk result (buf.new ≡ slice_range (Self.Seal.bytes of.now) at (at + length buf.old)) }
        ensures counted { OnOk result (reads self.new ≡ next_count (reads self.old)) }
        ensures uncounted { OnErr result (reads self.new ≡ reads self.old) }
        ensures cause { HasCause (faults self.old) (faults self.new) result };
}
