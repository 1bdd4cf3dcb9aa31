// Logging a frame of entries.
ghost use Rattle.std.specs.Prelude.{OnOk};
ghost use Rattle.ann_types.specs.Lists.{BasedList};
ghost use Rattle.ann_log.specs.LogView.{files_of, held_of, IsBeforeOrAfter};
ghost use Rattle.ann_log.specs.Told.{LeaveFiles};
ghost use Rattle.ann_account.specs.Steps.{StillLead};
ghost use Rattle.ann_vault.specs.Held.{Holding};
ghost use Rattle.ann_journal.specs.Journal.{index_in};
ghost use Rattle.ann_journal.specs.Logged.{CanLog, CanLogAll, IsLogOutcome, IsStoreOutcome, MayGrow, StaysSafe};
ghost use Rattle.ann_journal.specs.Safe.{IsSafe};

use crate::journal::Journal;
use crate::refused::Unlogged;
use ann_disk::LogFile;
use ann_log::Disk;
use ann_types::Entry;
use ann_vault::Sealed;

impl<F: LogFile, S: Sealed> Journal<F, S> {
    /// Stores a frame of 1 to 64 entries in the log, with room to note them. They aren't noted yet.
    ///
    /// # Errors
    ///
    /// `Memory`, with nothing logged; or `Fault` where the log failed, which is closed then.
    pub(crate) fn store(&mut self, entries: &[Entry]) -> Result<(), Unlogged>
        requires { (h : BasedList) × CanLog F.LogFile h entries.now self.old }
        ensures stored { (h : BasedList) → CanLog F.LogFile h entries.now self.old →
            IsStoreOutcome F.LogFile h entries.now self.old self.new result }
        ensures during { LeaveFiles F.LogFile (files_of self.old.log) (files_of self.new.log)
            (IsBeforeOrAfter (held_of self.old.log) entries.now) }
        ensures safe { F.tells → (held : Holding) (h : BasedList)
            → CanLog F.LogFile h entries.now self.old
            → MayGrow F.LogFile held self.old.log h entries.now
            → StaysSafe F.LogFile held self.new.log h entries.now result }
    {
        let _open = self.log.is_closed();
        self.account.reserve(entries.len() as u32)?;
        match self.log.append(entries) {
            Ok(()) => Ok(()),
            Err(Disk) => Err(Unlogged::Fault),
        }
    }

    /// Logs a frame of 1 to 64 entries, of which none is an End, and notes them.
    ///
    /// # Errors
    ///
    /// `Memory`, with nothing logged; or `Fault` where the log failed, which is closed then.
    pub fn log_all(&mut self, entries: Vec<Entry>) -> Result<(), Unlogged>
        requires { (h : BasedList) × CanLogAll F.LogFile h entries.items self.old }
        ensures logged { (h : BasedList) → CanLogAll F.LogFile h entries.items self.old →
            IsLogOutcome F.LogFile h entries.items self.old self.new result }
        ensures brings { (h : BasedList) → CanLogAll F.LogFile h entries.items self.old →
            OnOk result (StillLead S.bytes (index_in self.old.log) h entries.items
            self.old.account self.new.account) }
        // A crash at any moment leaves the list as it was, or with all of the entries.
        ensures during { LeaveFiles F.LogFile (files_of self.old.log) (files_of self.new.log)
            (IsBeforeOrAfter (held_of self.old.log) entries.items) }
        // What a vault holds for the list and each image of the log, it holds afterwards.
        ensures safe { F.tells → (held : Holding) (h : BasedList)
            → CanLogAll F.LogFile h entries.items self.old → IsSafe F.LogFile held self.old.log h
            → StaysSafe F.LogFile held self.new.log h entries.items result }
    {
        let _at = self.log.count();
        self.store(&entries)?;
        self.account.note_all(entries);
        Ok(())
    }
}
