ghost use Rattle.std.specs.Prelude.{ℕ, List, Option};
ghost use Rattle.std.specs.Io.{ReadsAtMost};
ghost use Rattle.std.specs.Io.KnownBytes.{ReadConsumes};
ghost use Rattle.ann_fault.specs.Counts.{HasCause};
ghost use Rattle.ann_outside.specs.Told.{TellsStill};

use ann_fault::Failed;

/// An input of bytes.
///
/// It may tell the bytes that are left; one that doesn't tell claims nothing of them. Its count of faults stays at
/// `2^64 - 1`.
pub trait Source: Drop {
    ghost left: { Self → Option (List ℕ) };

    ghost faults: { Self → ℕ };

    /// Reads bytes into the front of the buffer, and gives their number: 0 exactly at the end of the input, where
    /// the buffer isn't empty.
    fn read(&mut self, buf: &mut [u8]) -> Result<usize, Failed>
        // No more than the buffer holds.
        ensures bound { ReadsAtMost result buf.new }
        // The bytes are the first of those that are left.
        ensures bytes { ReadConsumes (left self.old) (left self.new) result buf.new }
        ensures tells { TellsStill (left self.old) (left self.new) }
        // A failure is one fault more, and a success is none.
        ensures cause { HasCause (faults self.old) (faults self.new) result };
}
