// The ledger, and updates of it.
ghost use Rattle.std.specs.Prelude.{◌≡◌, ◌<◌, Bool, false, length, IsTrue, OnOk, MatchResult};
ghost use Rattle.ann_types.specs.Lists.{BasedList, with_entries};
ghost use Rattle.ann_log.specs.LogView.{files_of, held_of, IsBeforeOrAfter};
ghost use Rattle.ann_log.specs.Told.{LeaveFiles};
ghost use Rattle.ann_account.specs.Steps.{StillLead};
ghost use Rattle.ann_vault.specs.Held.{Holding};
ghost use Rattle.ann_merge.specs.Job.{JobView, KeepsNumbers};
ghost use Rattle.ann_journal.specs.Journal.{IsJournalOf, index_in};
ghost use Rattle.ann_journal.specs.Logged.{StaysSafe};
ghost use Rattle.ann_journal.specs.Safe.{IsSafe};
ghost use Rattle.ann_journal.specs.Updated.{IsUpdate, entries_by};
ghost use Rattle.ann_ledger.specs.Ledger.{IsJobOn, IsLedgerOf};
ghost use Rattle.ann_ledger.specs.Merging.{IsReadiness};

use crate::refused::NotReady;
use ann_disk::LogFile;
use ann_journal::{Journal, Receipt, UpdateRefused};
use ann_stock::Stock;
use ann_types::Change;
use ann_vault::{Eye, Vault};
use std::alloc::Global;

/// What an index keeps beside its view.
#[derive(Drop)]
pub struct Ledger<F: LogFile, V: Vault, E: Eye<Seal = V::Seal>> {
    /// The log, and what is known of its list.
    pub journal: Journal<F, V::Seal>,
    /// The vault and the eyes of the workers, and the segments that are retired.
    pub stock: Stock<V, E>,
}

impl<F: LogFile, V: Vault, E: Eye<Seal = V::Seal>> Ledger<F, V, E> {
    /// Whether a call of the log has failed. A closed log isn't extended, and no merge begins or ends any more.
    pub fn is_closed(&self) -> bool
        ensures closed { result ≡ self.now.journal.log.is_closed }
        // While it is open, the job of the open Begin stays right as it is worked.
        ensures working { result ≡ false → (sound : Bool) (h : BasedList) (job worked : JobView V E V.Seal)
            → IsLedgerOf F.LogFile V.Seal.tells V.Seal.bytes V.held sound h self.now.journal self.now.stock
            → IsJobOn F.LogFile V.Seal.tells V.Seal.bytes V.held sound self.now.journal.log h job
            → worked.order ≡ job.order
            → (V.Seal.tells → KeepsNumbers job.order.number (V.held job.vault) (V.held worked.vault))
            → IsJobOn F.LogFile V.Seal.tells V.Seal.bytes V.held sound self.now.journal.log h worked }
    {
        self.journal.is_closed()
    }

    /// Judges an update of 1 to 64 changes of a client, and logs it in one frame where it is accepted. It then waits to be
    /// shown.
    ///
    /// # Errors
    ///
    /// `Stopped` where the log is closed; then the first change that is refused; then `Memory`, with nothing logged; and
    /// `LogFault` where the log failed, which is closed then.
    pub fn update(
        &mut self,
        alloc: Global,
        by: u32,
        changes: &[Change],
    ) -> Result<Receipt, UpdateRefused>
        requires some { 0 < length changes.now }
        requires few { length changes.now < 65 }
        requires list { (sound : Bool) × (h : BasedList) × IsLedgerOf F.LogFile V.Seal.tells V.Seal.bytes
            V.held sound h self.old.journal self.old.stock }
        ensures updated { (h : BasedList) → IsJournalOf F.LogFile h self.old.journal →
            IsUpdate F.LogFile h by changes.now self.old.journal self.new.journal result }
        ensures ledger { (sound : Bool) (h : BasedList) → IsLedgerOf F.LogFile V.Seal.tells V.Seal.bytes
            V.held sound h self.old.journal self.old.stock → MatchResult result
            (λ receipt. IsLedgerOf F.LogFile V.Seal.tells V.Seal.bytes V.held sound
            (with_entries h (entries_by by changes.now)) self.new.journal self.new.stock)
            (λ why. IsLedgerOf F.LogFile V.Seal.tells V.Seal.bytes V.held sound
            h self.new.journal self.new.stock) }
        ensures stock { self.new.stock ≡ self.old.stock }
        ensures brings { (h : BasedList) → IsJournalOf F.LogFile h self.old.journal →
            OnOk result (StillLead V.Seal.bytes (index_in self.old.journal.log) h
            (entries_by by changes.now) self.old.journal.account self.new.journal.account) }
        // A crash at any moment leaves the list as it was, or with all of the entries.
        ensures during { self.old.journal.log.is_closed ≡ false →
            LeaveFiles F.LogFile (files_of self.old.journal.log) (files_of self.new.journal.log)
            (IsBeforeOrAfter (held_of self.old.journal.log) (entries_by by changes.now)) }
        // What any vault holds for the list and each image of the log, it holds afterwards: so does that of a job that is out.
        ensures safe { F.tells → (held : Holding) (h : BasedList) → IsJournalOf F.LogFile h self.old.journal →
            IsSafe F.LogFile held self.old.journal.log h →
            StaysSafe F.LogFile held self.new.journal.log h (entries_by by changes.now) result }
    {
        self.journal.update(alloc, by, changes)
    }

    /// Whether a merge may be begun now.
    ///
    /// # Errors
    ///
    /// `Stopped` where the log is closed, and then `Running` where a job is out.
    pub fn ready(&self) -> Result<(), NotReady>
        requires { (sound : Bool) × (h : BasedList) × IsLedgerOf F.LogFile V.Seal.tells V.Seal.bytes
            V.held sound h self.now.journal self.now.stock }
        ensures { (sound : Bool) (h : BasedList) → IsLedgerOf F.LogFile V.Seal.tells V.Seal.bytes
            V.held sound h self.now.journal self.now.stock →
            IsReadiness h self.now.journal self.now.stock result }
    {
        let at = self.journal.account().at();
        if self.journal.is_closed() {
            return Err(NotReady::Stopped { at });
        }
        if !self.stock.is_out() {
            return Ok(());
        }
        match self.journal.account().begun() {
            Some(since) => Err(NotReady::Running { since, at }),
            // While a job is out, its Begin is open.
            None => unreachable!(),
        }
    }
}
