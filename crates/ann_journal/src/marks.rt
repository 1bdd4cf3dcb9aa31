// Logging the Begin and the End of a merge.
ghost use Rattle.std.specs.Prelude.{[], ◌∷◌, OnOk};
ghost use Rattle.ann_types.specs.Lists.{BasedList};
ghost use Rattle.ann_types.specs.declared.entry.Entry.TheVariants.{Begin, End};
ghost use Rattle.ann_log.specs.LogView.{files_of, held_of, IsBeforeOrAfter};
ghost use Rattle.ann_log.specs.Told.{LeaveFiles};
ghost use Rattle.ann_account.specs.Steps.{HoldsMerge, StillLead};
ghost use Rattle.ann_vault.specs.Held.{Holding};
ghost use Rattle.ann_journal.specs.Journal.{index_in};
ghost use Rattle.ann_journal.specs.Logged.{CanLogAll, CanLogEnd, IsLogOutcome, MayGrow, StaysSafe};
ghost use Rattle.ann_journal.specs.Safe.{IsSafe};

use crate::journal::Journal;
use crate::refused::Unlogged;
use ann_disk::LogFile;
use ann_segment::Segment;
use ann_types::Entry;
use ann_vault::Sealed;
use std::sync::Arc;

impl<F: LogFile, S: Sealed> Journal<F, S> {
    /// Logs the Begin of a merge, in a frame of its own, and notes it.
    ///
    /// # Errors
    ///
    /// `Memory`, with nothing logged; or `Fault` where the log failed, which is closed then.
    pub fn log_begin(&mut self, by: u32) -> Result<(), Unlogged>
        requires { (h : BasedList) × CanLogAll F.LogFile h (Begin by ∷ []) self.old }
        ensures logged { (h : BasedList) → CanLogAll F.LogFile h (Begin by ∷ []) self.old →
            IsLogOutcome F.LogFile h (Begin by ∷ []) self.old self.new result }
        ensures brings { (h : BasedList) → CanLogAll F.LogFile h (Begin by ∷ []) self.old →
            OnOk result (StillLead S.bytes (index_in self.old.log) h (Begin by ∷ [])
            self.old.account self.new.account) }
        ensures during { LeaveFiles F.LogFile (files_of self.old.log) (files_of self.new.log)
            (IsBeforeOrAfter (held_of self.old.log) (Begin by ∷ [])) }
        ensures safe { F.tells → (held : Holding) (h : BasedList)
            → CanLogAll F.LogFile h (Begin by ∷ []) self.old → IsSafe F.LogFile held self.old.log h
            → StaysSafe F.LogFile held self.new.log h (Begin by ∷ []) result }
    {
        let _at = self.log.count();
        self.store(&[Entry::Begin { by }])?;
        self.account.note(Entry::Begin { by });
        Ok(())
    }

    /// Logs the End of the open merge, whose segment this is, in a frame of its own, and notes it.
    ///
    /// # Errors
    ///
    /// `Memory`, with nothing logged; or `Fault` where the log failed, which is closed then.
    pub fn log_end(&mut self, by: u32, segment: Arc<Segment<S>>) -> Result<(), Unlogged>
        requires { (h : BasedList) × CanLogEnd F.LogFile h by segment.value self.old }
        ensures logged { (h : BasedList) → CanLogEnd F.LogFile h by segment.value self.old →
            IsLogOutcome F.LogFile h (End by segment.value.number ∷ []) self.old self.new result }
        // Where the segment holds the graph that the merge makes, what waits brings it.
        ensures brings { (h : BasedList) → CanLogEnd F.LogFile h by segment.value self.old →
            HoldsMerge S.bytes (index_in self.old.log) h segment.value →
            OnOk result (StillLead S.bytes (index_in self.old.log) h (End by segment.value.number ∷ [])
            self.old.account self.new.account) }
        ensures during { LeaveFiles F.LogFile (files_of self.old.log) (files_of self.new.log)
            (IsBeforeOrAfter (held_of self.old.log) (End by segment.value.number ∷ [])) }
        // The vault must hold the merged graph too, since it is in doubt after a fault which of the lists stands.
        ensures safe { F.tells → (held : Holding) (h : BasedList)
            → CanLogEnd F.LogFile h by segment.value self.old
            → MayGrow F.LogFile held self.old.log h (End by segment.value.number ∷ [])
            → StaysSafe F.LogFile held self.new.log h (End by segment.value.number ∷ []) result }
    {
        let _at = self.log.count();
        let number = segment.number();
        self.store(&[Entry::End {
            by,
            segment: number,
        }])?;
        self.account.note_end(by, segment);
        Ok(())
    }
}
