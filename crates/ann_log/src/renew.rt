// Renewing a log: the other file is written anew, and then the log's file is cut to nothing.
ghost use Rattle.std.specs.Prelude.{◌≡◌, ◌↔◌, false, OnOk, OnErr, IsTrue, IsErr};
ghost use Rattle.ann_log.specs.Causes.{HaveCause};
ghost use Rattle.ann_log.specs.LogView.{files_of, held_of};
ghost use Rattle.ann_log.specs.Renewed.{IsRenewable, HasTurned, HasNotTurned, IsOnItsFile, HasCutOther, HasRenewed, HasNotRenewed, IsOldOrNew, renewed, opposite};
ghost use Rattle.ann_log.specs.Text.{StandsFor};
ghost use Rattle.ann_log.specs.Told.{LeaveFiles};

use crate::log::Log;
use crate::refused::Disk;
use crate::write::write_log;
use ann_disk::{LogFile, cut_synced};
use ann_frame::Entries;
use ann_preamble::{Base, Side};
use std::mem;

// The other one of two files.
fn opposite(side: Side) -> Side
    ensures { result ≡ opposite side }
{
    match side {
        Side::First => Side::Second,
        Side::Second => Side::First,
    }
}

impl<F: LogFile> Log<F> {
    /// Writes the log anew, with this base and these entries behind it and with a generation one higher, and leaves
    /// nothing of what it was. Takes no memory.
    ///
    /// # Errors
    ///
    /// A fault of one of the files. The log is then closed, and it holds what it held before or all that is new; so do its
    /// files when they are opened again.
    pub fn renew(&mut self, base: &Base, tail: &Entries) -> Result<(), Disk>
        requires { IsRenewable self.old base.now tail.now }
        ensures renewed { OnOk result (HasRenewed F.LogFile self.old base.now tail.now self.new) }
        ensures refused { OnErr result (HasNotRenewed F.LogFile self.old base.now tail.now self.new) }
        ensures closed { IsTrue self.new.is_closed ↔ IsErr result }
        // A crash at any moment of the call leaves what the log held before it, or all that is new.
        ensures during { LeaveFiles F.LogFile (files_of self.old) (files_of self.new)
            (IsOldOrNew (held_of self.old) (renewed (held_of self.old) base.now tail.now)) }
    {
        self.write_other(base, tail)?;
        self.cut_other()
    }

    // Writes the other file anew, which then is the log.
    fn write_other(&mut self, base: &Base, tail: &Entries) -> Result<(), Disk>
        requires { IsRenewable self.old base.now tail.now }
        ensures turned { OnOk result (HasTurned F.LogFile self.old base.now tail.now self.new) }
        ensures kept { OnErr result (HasNotTurned F.LogFile self.old self.new) }
        ensures closed { IsTrue self.new.is_closed ↔ IsErr result }
        ensures during { LeaveFiles F.LogFile (files_of self.old) (files_of self.new)
            (IsOldOrNew (held_of self.old) (renewed (held_of self.old) base.now tail.now)) }
    {
        let written = write_log(
            &mut self.other,
            &mut self.room,
            &self.params,
            &self.book,
            base,
            self.generation + 1,
            tail.items(),
        );
        let Ok(gate) = written else {
            self.closed = true;
            return Err(Disk);
        };
        mem::swap(&mut self.log, &mut self.other);
        self.side = opposite(self.side);
        self.base = *base;
        self.generation += 1;
        self.gate = gate;
        self.count = tail.items().len() as u64;
        Ok(())
    }

    // Cuts the other file to nothing.
    fn cut_other(&mut self) -> Result<(), Disk>
        requires open { self.old.is_closed ≡ false }
        ensures cut { OnOk result (HasCutOther F.LogFile self.old self.new) }
        ensures same { IsOnItsFile F.LogFile self.old self.new }
        ensures closed { IsTrue self.new.is_closed ↔ IsErr result }
        ensures during { LeaveFiles F.LogFile (files_of self.old) (files_of self.new)
            (StandsFor (held_of self.old)) }
        ensures cause { HaveCause F.LogFile (files_of self.old) (files_of self.new) result }
    {
        let Ok(()) = cut_synced(&mut self.other, 0) else {
            self.closed = true;
            return Err(Disk);
        };
        Ok(())
    }
}
