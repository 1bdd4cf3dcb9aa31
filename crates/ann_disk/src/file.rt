// The file of a log: what a read gives, and what a crash may leave.
ghost use Rattle.std.specs.Prelude.{◌≡◌, ◌+◌, ◌<◌, ◌≤◌, ◌^◌, [], ◌∷◌, ◌++◌, List, ℕ, length, take, slice_range, OnOk, OnErr, IfOk};
ghost use Rattle.ann_fault.specs.Counts.{HasCause};
ghost use Rattle.ann_disk.specs.File.{overwritten, Torn, Cut, IsUntouched};
ghost use Rattle.ann_disk.specs.Image.{Unsynced, IsImage, clean, after_write, after_cut};

use ann_fault::Failed;

/// A file that is read, written, cut and synced.
///
/// A type of file either tells what its files hold, or tells nothing. Where it tells, a read and a cut must lie within
/// the bytes, and a write must begin at or before their end. Where it doesn't, a call outside these fails.
pub trait LogFile: Drop {
    /// Whether files of this type tell what they hold.
    ghost tells: { Type 0 };

    /// What a read gives.
    ghost seen: { Self → List ℕ };

    /// What was done since the last sync.
    ghost unsynced: { Self → Unsynced };

    /// The clock: what had been done at each sync so far.
    ghost past: { Self → List Unsynced };

    /// How often a call has failed. The count stays at 2^64 - 1.
    ghost faults: { Self → ℕ };

    /// The number of bytes.
    fn length(&mut self) -> Result<u64, Failed>
        ensures value { tells → IfOk result (λ n. n ≡ length (seen self.old)) }
        ensures same { tells → IsUntouched seen unsynced past self.old self.new }
        ensures cause { HasCause (faults self.old) (faults self.new) result };

    /// Reads the bytes from a place on into the whole of a buffer.
    fn read_at(&mut self, at: u64, buf: &mut [u8]) -> Result<(), Failed>
        requires { tells → at + length buf.old ≤ length (seen self.old) }
        ensures bytes { tells → OnOk result (buf.new ≡ slice_range (seen self.old) at (at + length buf.old)) }
        ensures same { tells → IsUntouched seen unsynced past self.old self.new }
        ensures cause { HasCause (faults self.old) (faults self.new) result };

    /// Writes over what is there, and past the end. After a failure some part of the range may be written; a crash
    /// may then leave anything in all of it. A write whose end isn't below 2^64 fails.
    fn write_at(&mut self, at: u64, bytes: &[u8]) -> Result<(), Failed>
        requires { tells → at ≤ length (seen self.old) }
        ensures written { tells → OnOk result (seen self.new ≡ overwritten (seen self.old) at bytes.now) }
        ensures torn { tells → OnErr result (Torn at (length bytes.now) (seen self.old) (seen self.new)) }
        // Whatever the answer, the range counts as written.
        ensures images { tells → unsynced self.new ≡ after_write at (length bytes.now) (unsynced self.old) }
        ensures past { tells → past self.new ≡ past self.old }
        ensures end { OnOk result (at + length bytes.now < 2 ^ 64) }
        ensures cause { HasCause (faults self.old) (faults self.new) result };

    /// Cuts the file to a length. After a failure the end may be anywhere between.
    fn cut(&mut self, to: u64) -> Result<(), Failed>
        requires { tells → to ≤ length (seen self.old) }
        ensures cut { tells → OnOk result (seen self.new ≡ take to (seen self.old)) }
        ensures torn { tells → OnErr result (Cut to (seen self.old) (seen self.new)) }
        // Whatever the answer, it counts as a cut.
        ensures images { tells → unsynced self.new ≡ after_cut to (unsynced self.old) }
        ensures past { tells → past self.new ≡ past self.old }
        ensures cause { HasCause (faults self.old) (faults self.new) result };

    /// After it, a crash leaves what a read gives. A failure changes nothing.
    fn sync(&mut self) -> Result<(), Failed>
        ensures seen { tells → seen self.new ≡ seen self.old }
        ensures images { tells → OnOk result (unsynced self.new ≡ clean (seen self.old)) }
        ensures past { tells → OnOk result (past self.new ≡ past self.old ++ unsynced self.old ∷ []) }
        ensures failed { tells → OnErr result (IsUntouched seen unsynced past self.old self.new) }
        ensures cause { HasCause (faults self.old) (faults self.new) result };

    /// What a read gives is one of the images.
    ghost reads_an_image: { (file : Self) → tells → IsImage (unsynced file) (seen file) };
}
