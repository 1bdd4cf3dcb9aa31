// Updates: judged, logged and noted.
ghost use Rattle.std.specs.Prelude.{◌≡◌, ◌<◌, false, length, OnOk};
ghost use Rattle.ann_types.specs.Lists.{BasedList};
ghost use Rattle.ann_log.specs.LogView.{files_of, held_of, IsBeforeOrAfter};
ghost use Rattle.ann_log.specs.Told.{LeaveFiles};
ghost use Rattle.ann_account.specs.Steps.{StillLead};
ghost use Rattle.ann_vault.specs.Held.{Holding};
ghost use Rattle.ann_journal.specs.Journal.{IsJournalOf, index_in};
ghost use Rattle.ann_journal.specs.Logged.{StaysSafe};
ghost use Rattle.ann_journal.specs.Safe.{IsSafe};
ghost use Rattle.ann_journal.specs.Updated.{IsRefusalOf, IsUpdate, entries_by};

use crate::entries::entries_of;
use crate::journal::Journal;
use crate::refused::{Receipt, Unlogged, UpdateRefused};
use ann_disk::LogFile;
use ann_judge::Refusal;
use ann_types::Change;
use ann_vault::Sealed;
use std::alloc::Global;

/// A refusal of the change at an index, where the list has this length.
fn refused(index: u32, refusal: Refusal, at: u64) -> UpdateRefused
    ensures { IsRefusalOf index refusal at result }
{
    match refusal {
        Refusal::Dimension { got, want } => UpdateRefused::Dimension {
            index,
            got,
            want,
            at,
        },
        Refusal::Full => UpdateRefused::Full { index, at },
        Refusal::Present { tag } => UpdateRefused::Present { index, tag, at },
        Refusal::Absent { tag } => UpdateRefused::Absent { index, tag, at },
    }
}

impl<F: LogFile, S: Sealed> Journal<F, S> {
    /// Judges an update of 1 to 64 changes of a client, and logs it in one frame where it is accepted. It then waits to be
    /// shown. The receipt has the length of the list behind it.
    ///
    /// # Errors
    ///
    /// `Stopped` where the log is closed; then the first change that is refused; then `Memory`, with nothing logged; and
    /// `LogFault` where the log failed, which is closed then.
    pub fn update(
        &mut self,
        alloc: Global,
        by: u32,
        changes: &[Change],
    ) -> Result<Receipt, UpdateRefused>
        requires some { 0 < length changes.now }
        requires few { length changes.now < 65 }
        requires list { (h : BasedList) × IsJournalOf F.LogFile h self.old }
        ensures updated { (h : BasedList) → IsJournalOf F.LogFile h self.old →
            IsUpdate F.LogFile h by changes.now self.old self.new result }
        // A crash at any moment leaves the list as it was, or with all of the entries.
        ensures during { self.old.log.is_closed ≡ false →
            LeaveFiles F.LogFile (files_of self.old.log) (files_of self.new.log)
            (IsBeforeOrAfter (held_of self.old.log) (entries_by by changes.now)) }
        ensures brings { (h : BasedList) → IsJournalOf F.LogFile h self.old → OnOk result (StillLead S.bytes
            (index_in self.old.log) h (entries_by by changes.now) self.old.account self.new.account) }
        ensures safe { F.tells → (held : Holding) (h : BasedList) → IsJournalOf F.LogFile h self.old →
            IsSafe F.LogFile held self.old.log h →
            StaysSafe F.LogFile held self.new.log h (entries_by by changes.now) result }
    {
        if self.log.is_closed() {
            return Err(UpdateRefused::Stopped {
                at: self.account.at(),
            });
        }
        if let Some((index, refusal)) = self.account.standing(self.log.params()).judge(changes) {
            return Err(refused(index, refusal, self.account.at()));
        }
        let entries = entries_of(alloc, by, changes)?;
        match self.log_all(entries) {
            Ok(()) => Ok(Receipt {
                at: self.account.at(),
            }),
            Err(Unlogged::Memory) => Err(UpdateRefused::Memory),
            Err(Unlogged::Fault) => Err(UpdateRefused::LogFault),
        }
    }
}
