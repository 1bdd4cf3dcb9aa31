// Opening a log: its files are synced and read, and what stands behind its last gate is cut off.
ghost use Rattle.std.specs.Prelude.{◌≡◌, ◌+◌, ◌<◌, length, take, OnOk, IfOk, IfErr};
ghost use Rattle.ann_fault.specs.Counts.{HasCause};
ghost use Rattle.ann_disk.specs.File.{Cut};
ghost use Rattle.ann_log.specs.Causes.{HaveCause, HaveCauses, AreCausedBy};
ghost use Rattle.ann_log.specs.Found.{HasFound, IsRefusedFor};
ghost use Rattle.ann_log.specs.Opened.{IsOpened, IsNotOpened, IsPrepared, HasCutLog, StartsFrom, HasStarted, LeavesHeld, seen_on};
ghost use Rattle.ann_log.specs.Pairs.{ReadAsBefore, AreImages, MayBeCut};
ghost use Rattle.ann_log.specs.Told.{IsSynced, AreRested, Leaves, LeaveFiles, HoldSame};

use crate::files::{Files, parted};
use crate::log::Log;
use crate::read::{Found, read_both};
use crate::refused::{OpenRefused, OpenWhy};
use crate::room::Room;
use ann_disk::{Failed, LogFile, cut_synced};
use ann_frame::Entries;
use ann_preamble::Side;
use std::alloc::Global;

impl<F: LogFile> Log<F> {
    /// Opens the log in these files. It syncs both, reads them, and cuts off what stands behind the first gate that isn't
    /// open, so that nothing of a frame that wasn't finished comes back. Whether an entry may stand where it does isn't
    /// asked here.
    ///
    /// # Errors
    ///
    /// `NoIndex` and `BadLog` are what the bytes say, `Disk` is a fault of a file, and `Memory` want of memory. The files
    /// come back, and hold what they held; only after a fault of the cut the log's file may be shorter.
    pub fn open(alloc: Global, files: Files<F>) -> Result<(Log<F>, Entries), OpenRefused<F>>
        ensures opened { IfOk result (λ opened. IsOpened F.LogFile files opened.0 opened.1) }
        ensures refused { IfErr result (λ refused. IsNotOpened F.LogFile files refused.files refused.why) }
    {
        let mut files = files;
        match prepare(alloc, &mut files) {
            Ok((found, room)) => {
                let (log, other) = parted(found.side, files);
                Ok(Log::started(log, other, found, room))
            }
            Err(why) => Err(OpenRefused { why, files }),
        }
    }

    // The log that was found in these files, of which the first is the log.
    fn started(log: F, other: F, found: Found, room: Room) -> (Log<F>, Entries)
        requires { StartsFrom F.LogFile log other found room }
        ensures { HasStarted F.LogFile log other found result.0 result.1 }
    {
        let count = found.frames.entries.items().len() as u64;
        let log = Log {
            log,
            other,
            side: found.side,
            params: found.preamble.params,
            book: found.preamble.book,
            base: found.preamble.base,
            generation: found.preamble.generation,
            gate: found.frames.gate as u64,
            count,
            closed: false,
            room,
        };
        (log, found.frames.entries)
    }
}

/// Syncs both files, reads them, and cuts off what stands behind the first gate that isn't open.
fn prepare<F: LogFile>(alloc: Global, files: &mut Files<F>) -> Result<(Found, Room), OpenWhy>
    ensures prepared { IfOk result (λ r. IsPrepared F.LogFile files.old files.new r.0 r.1) }
    ensures refused { IfErr result (IsRefusedFor F.LogFile files.old) }
    ensures left { F.tells → IfErr result (LeavesHeld F.LogFile files.old files.new) }
    ensures during { LeaveFiles F.LogFile files.old files.new
        (ReadAsBefore (F.unsynced files.old.first) (F.unsynced files.old.second)) }
    ensures cause { IfErr result (λ why. AreCausedBy F.LogFile files.old files.new (why ≡ OpenWhy.Disk)) }
{
    let found = settle(alloc, files)?;
    let room = Room::new(alloc, found.preamble.params.d)?;
    cut_log(files, found.side, found.frames.gate as u64, found.end)?;
    Ok((found, room))
}

// Syncs both files, and reads them.
fn settle<F: LogFile>(alloc: Global, files: &mut Files<F>) -> Result<Found, OpenWhy>
    ensures found { IfOk result (HasFound F.LogFile files.old) }
    ensures refused { IfErr result (IsRefusedFor F.LogFile files.old) }
    ensures seen { F.tells → HoldSame F.LogFile files.old files.new }
    ensures rest { OnOk result (AreRested F.LogFile files.new) }
    ensures during { LeaveFiles F.LogFile files.old files.new
        (AreImages (F.unsynced files.old.first) (F.unsynced files.old.second)) }
    ensures cause { HaveCauses F.LogFile files.old files.new OpenWhy.Disk result }
{
    sync_both(files)?;
    read_both(alloc, files)
}

// Syncs both files.
fn sync_both<F: LogFile>(files: &mut Files<F>) -> Result<(), Failed>
    ensures seen { F.tells → HoldSame F.LogFile files.old files.new }
    ensures rest { OnOk result (AreRested F.LogFile files.new) }
    ensures during { LeaveFiles F.LogFile files.old files.new
        (AreImages (F.unsynced files.old.first) (F.unsynced files.old.second)) }
    ensures cause { HaveCause F.LogFile files.old files.new result }
{
    files.first.sync()?;
    files.second.sync()?;
    Ok(())
}

// Cuts off what stands behind a gate of the log's file, which ends there.
fn cut_log<F: LogFile>(files: &mut Files<F>, side: Side, gate: u64, end: u64) -> Result<(), Failed>
    requires place { gate < end }
    requires end { F.tells → end ≡ length (seen_on F.LogFile side files.old) }
    requires rest { AreRested F.LogFile files.old }
    ensures cut { OnOk result (HasCutLog F.LogFile side (gate + 1) files.old files.new) }
    ensures during { LeaveFiles F.LogFile files.old files.new
        (MayBeCut side (gate + 1) (F.seen files.old.first) (F.seen files.old.second)) }
    ensures cause { HaveCause F.LogFile files.old files.new result }
{
    match side {
        Side::First => cut_behind(&mut files.first, gate, end),
        Side::Second => cut_behind(&mut files.second, gate, end),
    }
}

// Cuts off what stands behind a gate of a file that ends there, and syncs. Where nothing stands there it does nothing.
fn cut_behind<F: LogFile>(file: &mut F, gate: u64, end: u64) -> Result<(), Failed>
    requires place { gate < end }
    requires end { F.tells → end ≡ length (F.seen file.old) }
    requires rest { IsSynced F.LogFile file.old }
    ensures cut { F.tells → OnOk result (F.seen file.new ≡ take (gate + 1) (F.seen file.old)) }
    ensures rest { OnOk result (IsSynced F.LogFile file.new) }
    ensures during { Leaves F.LogFile file.old file.new (Cut (gate + 1) (F.seen file.old)) }
    ensures cause { HasCause (F.faults file.old) (F.faults file.new) result }
{
    if gate + 1 == end {
        return Ok(());
    }
    cut_synced(file, gate + 1)
}
