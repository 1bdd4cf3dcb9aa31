// Calls of a file at rest, each with the sync behind it.
ghost use Rattle.std.specs.Prelude.{◌≡◌, ◌+◌, ◌<◌, ◌≤◌, ◌^◌, length, take, OnOk};
ghost use Rattle.ann_fault.specs.Counts.{HasCause};
ghost use Rattle.ann_disk.specs.File.{LeavesOnly, Torn, Cut, BeginsAnImage, overwritten};
ghost use Rattle.ann_disk.specs.Image.{clean};

use crate::{Failed, LogFile};

/// Writes, and syncs. A crash meanwhile leaves the range torn.
pub fn write_synced<F: LogFile>(file: &mut F, at: u64, bytes: &[u8]) -> Result<(), Failed>
    requires place { F.tells → at ≤ length (F.seen file.old) }
    requires rest { F.tells → F.unsynced file.old ≡ clean (F.seen file.old) }
    ensures written { F.tells → OnOk result (F.seen file.new ≡ overwritten (F.seen file.old) at bytes.now) }
    ensures rest { F.tells → OnOk result (F.unsynced file.new ≡ clean (F.seen file.new)) }
    ensures during { F.tells →
        LeavesOnly F.past F.unsynced file.old file.new (Torn at (length bytes.now) (F.seen file.old)) }
    ensures end { OnOk result (at + length bytes.now < 2 ^ 64) }
    ensures cause { HasCause (F.faults file.old) (F.faults file.new) result }
{
    file.write_at(at, bytes)?;
    file.sync()
}

/// Cuts, and syncs. A crash meanwhile leaves an end between.
pub fn cut_synced<F: LogFile>(file: &mut F, to: u64) -> Result<(), Failed>
    requires place { F.tells → to ≤ length (F.seen file.old) }
    requires rest { F.tells → F.unsynced file.old ≡ clean (F.seen file.old) }
    ensures written { F.tells → OnOk result (F.seen file.new ≡ take to (F.seen file.old)) }
    ensures rest { F.tells → OnOk result (F.unsynced file.new ≡ clean (F.seen file.new)) }
    ensures during { F.tells → LeavesOnly F.past F.unsynced file.old file.new (Cut to (F.seen file.old)) }
    ensures cause { HasCause (F.faults file.old) (F.faults file.new) result }
{
    file.cut(to)?;
    file.sync()
}

/// Cuts a file that need not be at rest, and syncs. A crash meanwhile leaves the front of what it might have left before.
pub fn cut_any<F: LogFile>(file: &mut F, to: u64) -> Result<(), Failed>
    requires place { F.tells → to ≤ length (F.seen file.old) }
    ensures written { F.tells → OnOk result (F.seen file.new ≡ take to (F.seen file.old)) }
    ensures rest { F.tells → OnOk result (F.unsynced file.new ≡ clean (F.seen file.new)) }
    // Whatever the answer, a read gives the front of what it gave.
    ensures torn { F.tells → Cut to (F.seen file.old) (F.seen file.new) }
    ensures during { F.tells →
        LeavesOnly F.past F.unsynced file.old file.new (BeginsAnImage (F.unsynced file.old)) }
    ensures cause { HasCause (F.faults file.old) (F.faults file.new) result }
{
    file.cut(to)?;
    file.sync()
}
