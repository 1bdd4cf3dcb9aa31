// Updates: shown up to now, judged, logged and shown.
ghost use Rattle.std.specs.Prelude.{◌≡◌, ◌<◌, false, Bool, length, IsErrOf};
ghost use Rattle.ann_types.specs.Lists.{BasedList};
ghost use Rattle.ann_log.specs.Appended.{IsSameLog};
ghost use Rattle.ann_log.specs.LogView.{files_of, held_of, IsBeforeOrAfter};
ghost use Rattle.ann_log.specs.Told.{LeaveFiles};
ghost use Rattle.ann_vault.specs.Counted.{CountsFault};
ghost use Rattle.ann_journal.specs.Updated.{entries_by};
ghost use Rattle.ann_journal.specs.declared.refused.UpdateRefused.TheVariants.{LogFault};
ghost use Rattle.ann_index.specs.Doubt.{IsInDoubt};
ghost use Rattle.ann_index.specs.Index.{IsIndexOf, kept_of};
ghost use Rattle.ann_index.specs.Updated.{IsUpdateOf};

use crate::index::Index;
use ann_disk::LogFile;
use ann_journal::{Receipt, UpdateRefused};
use ann_ledger::Ledger;
use ann_showing::show_all;
use ann_types::Change;
use ann_vault::{Eye, Vault};
use ann_view::View;
use std::alloc::Global;

/// Updates a ledger and shows the update in its view.
fn update_shown<F: LogFile, V: Vault, E: Eye<Seal = V::Seal>>(
    alloc: Global,
    ledger: &mut Ledger<F, V, E>,
    view: &mut View<V::Seal>,
    changes: &[Change],
) -> Result<Receipt, UpdateRefused>
    requires some { 0 < length changes.now }
    requires few { length changes.now < 65 }
    requires list { (sound : Bool) × (h : BasedList) × (shown : BasedList)
        × IsIndexOf F.LogFile V.Seal.tells V.Seal.bytes V.held
        sound h shown (kept_of ledger.old.journal ledger.old.stock view.old) }
    ensures updated { (sound : Bool) (h shown : BasedList)
        → IsIndexOf F.LogFile V.Seal.tells V.Seal.bytes V.held
        sound h shown (kept_of ledger.old.journal ledger.old.stock view.old) →
        IsUpdateOf F.LogFile V.Seal.tells V.Seal.bytes V.held sound h shown changes.now
        (kept_of ledger.old.journal ledger.old.stock view.old)
        (kept_of ledger.new.journal ledger.new.stock view.new) result }
    ensures same_log { IsSameLog ledger.old.journal.log ledger.new.journal.log }
    ensures stock { ledger.new.stock ≡ ledger.old.stock }
    ensures during { ledger.old.journal.log.is_closed ≡ false →
        LeaveFiles F.LogFile (files_of ledger.old.journal.log) (files_of ledger.new.journal.log)
        (IsBeforeOrAfter (held_of ledger.old.journal.log) (entries_by 0 changes.now)) }
{
    if ledger.journal.log().is_closed() {
        return Err(UpdateRefused::Stopped {
            at: ledger.journal.account().at(),
        });
    }
    show_all(&mut ledger.journal, view)?;
    let receipt = ledger.update(alloc, 0, changes)?;
    match show_all(&mut ledger.journal, view) {
        Ok(()) => Ok(receipt),
        Err(_) => Err(UpdateRefused::MemoryLogged { receipt }),
    }
}

impl<F: LogFile, V: Vault, E: Eye<Seal = V::Seal>> Index<F, V, E> {
    /// Makes 1 to 64 changes, all or none: they are judged one after the other, logged in one frame, and shown. The receipt
    /// has the length of the list behind them. Once it is answered, a crash keeps them.
    ///
    /// # Errors
    ///
    /// `Stopped` where the log is closed; then the first change that is refused; `Memory` where there was none, and nothing is
    /// logged; `LogFault` where the log failed, which is closed then; and `MemoryLogged` where the changes are logged, and
    /// there was no memory to show them, as a later call does.
    pub fn update(&mut self, changes: &[Change]) -> Result<Receipt, UpdateRefused>
        requires some { 0 < length changes.now }
        requires few { length changes.now < 65 }
        ensures updated { (sound : Bool) (h shown : BasedList)
            → IsIndexOf F.LogFile V.Seal.tells V.Seal.bytes V.held sound h shown self.old.kept
            → IsUpdateOf F.LogFile V.Seal.tells V.Seal.bytes V.held sound h shown changes.now
            self.old.kept self.new.kept result }
        ensures same_log { IsSameLog self.old.kept.journal.log self.new.kept.journal.log }
        ensures stock { self.new.kept.stock ≡ self.old.kept.stock }
        ensures rest { self.new ≡ record self.old { kept = self.new.kept } }
        // The log's count of faults rises by one where the answer is `LogFault`, and else stays.
        ensures cause { CountsFault (λ why. why ≡ LogFault) result
            (F.faults self.old.kept.journal.log.log) (F.faults self.new.kept.journal.log.log) }
        // A crash at any moment leaves the list as it was, or with all of the changes.
        ensures during { self.old.kept.journal.log.is_closed ≡ false →
            LeaveFiles F.LogFile (files_of self.old.kept.journal.log) (files_of self.new.kept.journal.log)
            (IsBeforeOrAfter (held_of self.old.kept.journal.log) (entries_by 0 changes.now)) }
        // Where the log failed, so does one after the call.
        ensures doubt { IsErrOf result LogFault →
            IsInDoubt F.LogFile self.new.kept.journal.log (entries_by 0 changes.now) }
    {
        update_shown(self.alloc, &mut self.ledger, &mut self.view, changes)
    }
}
