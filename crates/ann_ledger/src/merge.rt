// Beginning a merge.
ghost use Rattle.std.specs.Prelude.{◌≡◌, None, Some, Bool, true, false, [], ◌∷◌, IsSome, IsTrue, IfOk, MatchOption, MatchResult};
ghost use Rattle.ann_types.specs.Fold.{fold_of};
ghost use Rattle.ann_types.specs.Lists.{BasedList};
ghost use Rattle.ann_types.specs.declared.entry.Entry.TheVariants.{Begin};
ghost use Rattle.ann_log.specs.LogView.{files_of, held_of, IsBeforeOrAfter};
ghost use Rattle.ann_log.specs.Told.{LeaveFiles};
ghost use Rattle.ann_account.specs.Steps.{StillLead};
ghost use Rattle.ann_vault.specs.Held.{Holding};
ghost use Rattle.ann_journal.specs.Journal.{IsJournalOf, index_in};
ghost use Rattle.ann_journal.specs.Safe.{IsSafe};
ghost use Rattle.ann_showing.specs.Showing.{Shows};
ghost use Rattle.ann_stock.specs.Stock.{AtHand, IsAtHand, Out, GivenBack, given_in, without_job};
ghost use Rattle.ann_ledger.specs.Ledger.{IsJobOn, IsLedgerOf};
ghost use Rattle.ann_ledger.specs.Merging.{HasTaken, IsOpening, list_behind};

use crate::ledger::Ledger;
use crate::refused::Unopened;
use ann_disk::LogFile;
use ann_journal::Unlogged;
use ann_mbegin::MergeInput;
use ann_merge::Job;
use ann_vault::{Eye, Vault};
use ann_view::View;
use std::alloc::{AllocError, Global};
use std::sync::Arc;

impl<F: LogFile, V: Vault, E: Eye<Seal = V::Seal>> Ledger<F, V, E> {
    /// Logs the Begin of a merge by a client, in a frame of its own, unless a merge is open. It then waits to be shown. The
    /// view shows all of the list, and the log is open. The answer is whether a Begin was logged.
    ///
    /// # Errors
    ///
    /// `Nothing` exactly where no merge is open and there is nothing to merge; then `Memory`, with nothing logged; and
    /// `LogFault` where the log failed, which is closed then.
    pub fn open_merge(&mut self, by: u32, view: &View<V::Seal>) -> Result<bool, Unopened>
        requires open { self.old.journal.log.is_closed ≡ false }
        requires list { (sound : Bool) × (h : BasedList)
            × IsLedgerOf F.LogFile V.Seal.tells V.Seal.bytes V.held sound h self.old.journal self.old.stock
            × Shows V.Seal.bytes sound self.old.journal.log h view.now }
        ensures opened { (sound : Bool) (h : BasedList) → IsJournalOf F.LogFile h self.old.journal →
            Shows V.Seal.bytes sound self.old.journal.log h view.now →
            IsOpening F.LogFile h by self.old.journal self.new.journal result }
        ensures ledger { (sound : Bool) (h : BasedList) → IsLedgerOf F.LogFile V.Seal.tells V.Seal.bytes
            V.held sound h self.old.journal self.old.stock →
            Shows V.Seal.bytes sound self.old.journal.log h view.now →
            IsLedgerOf F.LogFile V.Seal.tells V.Seal.bytes V.held
            sound (list_behind h by result) self.new.journal self.new.stock }
        ensures stock { self.new.stock ≡ self.old.stock }
        ensures brings { (sound : Bool) (h : BasedList) → IsJournalOf F.LogFile h self.old.journal →
            Shows V.Seal.bytes sound self.old.journal.log h view.now → result ≡ Ok true →
            StillLead V.Seal.bytes (index_in self.old.journal.log) h (Begin by ∷ [])
            self.old.journal.account self.new.journal.account }
        ensures during { LeaveFiles F.LogFile (files_of self.old.journal.log) (files_of self.new.journal.log)
            (IsBeforeOrAfter (held_of self.old.journal.log) (Begin by ∷ [])) }
        ensures safe { F.tells → (sound : Bool) (held : Holding) (h : BasedList)
            → IsJournalOf F.LogFile h self.old.journal
            → Shows V.Seal.bytes sound self.old.journal.log h view.now
            → IsSafe F.LogFile held self.old.journal.log h
            → IsSafe F.LogFile held self.new.journal.log (list_behind h by result) }
    {
        // Between two calls a crash leaves what the log holds.
        let _open = self.journal.log().is_closed();
        if self.journal.account().begun().is_some() {
            return Ok(false);
        }
        if !view.can_begin() {
            return Err(Unopened::Nothing {
                at: self.journal.account().at(),
            });
        }
        match self.journal.log_begin(by) {
            Ok(()) => Ok(true),
            Err(Unlogged::Memory) => Err(Unopened::Memory),
            Err(Unlogged::Fault) => Err(Unopened::LogFault),
        }
    }

    /// The job of the open Begin, with the vault and the eyes, which are at hand and then out. The view shows all of the list.
    ///
    /// The only error is want of memory, and all is then as before.
    pub fn take(&mut self, alloc: Global, view: &View<V::Seal>) -> Result<Job<V, E>, AllocError>
        requires hand { IsAtHand self.old.stock.tools }
        requires list { (sound : Bool) × (h : BasedList)
            × IsLedgerOf F.LogFile V.Seal.tells V.Seal.bytes V.held sound h self.old.journal self.old.stock
            × Shows V.Seal.bytes sound self.old.journal.log h view.now
            × IsSome (fold_of (index_in self.old.journal.log) h).begun }
        ensures job { (sound : Bool) (h : BasedList) → IsLedgerOf F.LogFile V.Seal.tells V.Seal.bytes
            V.held sound h self.old.journal self.old.stock →
            Shows V.Seal.bytes sound self.old.journal.log h view.now →
            IfOk result (IsJobOn F.LogFile V.Seal.tells V.Seal.bytes V.held sound self.old.journal.log h) }
        ensures taken { HasTaken self.old.stock self.new.stock result }
        ensures journal { self.new.journal ≡ self.old.journal }
        ensures ledger { (sound : Bool) (h : BasedList) → IsLedgerOf F.LogFile V.Seal.tells V.Seal.bytes
            V.held sound h self.old.journal self.old.stock →
            IsLedgerOf F.LogFile V.Seal.tells V.Seal.bytes V.held
            sound h self.new.journal self.new.stock }
    {
        let Some(position) = self.journal.account().begun() else {
            // A merge is open.
            unreachable!()
        };
        let log = self.journal.log();
        let _small = log.count();
        let book = Arc::new(alloc, log.book().copy()?)?;
        let input = MergeInput::of_begin(alloc, view, position, log.params(), book)?;
        Ok(self.stock.take(input))
    }

    /// The job that was given back, which is out again; none exactly where none was given back, and all is then as before.
    pub fn take_again(&mut self) -> Option<Job<V, E>>
        ensures job { result ≡ given_in self.old.stock.tools }
        ensures stock { self.new.stock ≡ record self.old.stock {
          tools = without_job self.old.stock.tools;
        } }
        ensures journal { self.new.journal ≡ self.old.journal }
        ensures ledger { (sound : Bool) (h : BasedList) → IsLedgerOf F.LogFile V.Seal.tells V.Seal.bytes
            V.held sound h self.old.journal self.old.stock →
            IsLedgerOf F.LogFile V.Seal.tells V.Seal.bytes V.held
            sound h self.new.journal self.new.stock }
    {
        self.stock.take_again()
    }

    /// Takes the job back that was out. It stays as it is until it is taken again.
    pub fn give_back(&mut self, job: Job<V, E>)
        requires { self.old.stock.tools ≡ Out }
        ensures stock { self.new.stock ≡ record self.old.stock {
          tools = GivenBack job;
        } }
        ensures journal { self.new.journal ≡ self.old.journal }
        ensures ledger { (sound : Bool) (h : BasedList) → IsLedgerOf F.LogFile V.Seal.tells V.Seal.bytes
            V.held sound h self.old.journal self.old.stock →
            IsJobOn F.LogFile V.Seal.tells V.Seal.bytes V.held sound self.old.journal.log h job →
            IsLedgerOf F.LogFile V.Seal.tells V.Seal.bytes V.held
            sound h self.new.journal self.new.stock }
    {
        self.stock.give_back(job);
    }
}
