// Ending a merge.
ghost use Rattle.std.specs.Prelude.{◌≡◌, Bool, false, ◌∷◌, [], IsSome, IsTrue, IfErr, OnOk, MatchResult};
ghost use Rattle.ann_types.specs.Lists.{BasedList, with_entry};
ghost use Rattle.ann_types.specs.declared.entry.Entry.TheVariants.{End};
ghost use Rattle.ann_log.specs.LogView.{files_of, held_of, IsBeforeOrAfter};
ghost use Rattle.ann_log.specs.Told.{LeaveFiles};
ghost use Rattle.ann_account.specs.Steps.{StillLead};
ghost use Rattle.ann_journal.specs.Journal.{index_in};
ghost use Rattle.ann_journal.specs.Logged.{StaysSafe};
ghost use Rattle.ann_stock.specs.Stock.{Out};
ghost use Rattle.ann_ledger.specs.Ledger.{IsJobOn, IsLedgerOf};
ghost use Rattle.ann_ledger.specs.Merging.{HasEnded, HasFinished, IsUnfinished};

use crate::ledger::Ledger;
use crate::refused::{FinishRefused, FinishWhy};
use ann_disk::LogFile;
use ann_journal::{Receipt, Unlogged};
use ann_merge::Job;
use ann_vault::{Eye, Vault};

impl<F: LogFile, V: Vault, E: Eye<Seal = V::Seal>> Ledger<F, V, E> {
    /// Logs the End of the open merge by a client, whose job is done and was out, in a frame of its own. It then waits to be
    /// shown. The vault and the eyes are at hand again, and the old segment is retired.
    ///
    /// # Errors
    ///
    /// `Stopped` where the log is closed; then `Memory`, with nothing logged; and `LogFault` where the log failed, which is
    /// closed then. The job comes back as it was, and is still out.
    pub fn finish(&mut self, by: u32, job: Job<V, E>) -> Result<Receipt, FinishRefused<V, E>>
        requires out { self.old.stock.tools ≡ Out }
        requires done { IsSome job.segment }
        requires list { (sound : Bool) × (h : BasedList)
            × IsLedgerOf F.LogFile V.Seal.tells V.Seal.bytes V.held sound h self.old.journal self.old.stock
            × IsJobOn F.LogFile V.Seal.tells V.Seal.bytes V.held sound self.old.journal.log h job }
        ensures finished { (sound : Bool) (h : BasedList) → IsLedgerOf F.LogFile V.Seal.tells V.Seal.bytes
            V.held sound h self.old.journal self.old.stock →
            IsJobOn F.LogFile V.Seal.tells V.Seal.bytes V.held sound self.old.journal.log h job →
            MatchResult result
            (HasFinished F.LogFile h by job self.old.journal self.new.journal self.old.stock self.new.stock)
            (λ refused. IsUnfinished F.LogFile h by job self.old.journal self.new.journal
            self.old.stock self.new.stock refused.why) }
        ensures job { IfErr result (λ refused. refused.job ≡ job) }
        ensures ledger { (sound : Bool) (h : BasedList) → IsLedgerOf F.LogFile V.Seal.tells V.Seal.bytes
            V.held sound h self.old.journal self.old.stock →
            IsJobOn F.LogFile V.Seal.tells V.Seal.bytes V.held sound self.old.journal.log h job →
            MatchResult result
            (λ receipt. IsLedgerOf F.LogFile V.Seal.tells V.Seal.bytes V.held
            sound (with_entry h (End by job.order.number)) self.new.journal self.new.stock)
            (λ refused. IsLedgerOf F.LogFile V.Seal.tells V.Seal.bytes V.held
            sound h self.new.journal self.new.stock
            × IsJobOn F.LogFile V.Seal.tells V.Seal.bytes V.held sound self.new.journal.log h refused.job) }
        // Where the place is sound, the segment of the End holds the graph that the merge makes.
        ensures brings { (sound : Bool) (h : BasedList) → IsTrue sound →
            IsLedgerOf F.LogFile V.Seal.tells V.Seal.bytes V.held
            sound h self.old.journal self.old.stock →
            IsJobOn F.LogFile V.Seal.tells V.Seal.bytes V.held sound self.old.journal.log h job →
            OnOk result (StillLead V.Seal.bytes (index_in self.old.journal.log) h
            (End by job.order.number ∷ []) self.old.journal.account self.new.journal.account) }
        ensures during { self.old.journal.log.is_closed ≡ false →
            LeaveFiles F.LogFile (files_of self.old.journal.log) (files_of self.new.journal.log)
            (IsBeforeOrAfter (held_of self.old.journal.log) (End by job.order.number ∷ [])) }
    {
        match self.log_end(by, &job) {
            Ok(receipt) => {
                self.stock.end(job);
                Ok(receipt)
            }
            Err(why) => Err(FinishRefused { why, job }),
        }
    }

    // Logs the End of the open merge, whose job is done, and makes room to retire its old segment.
    fn log_end(&mut self, by: u32, job: &Job<V, E>) -> Result<Receipt, FinishWhy>
        requires done { IsSome job.now.segment }
        requires list { (sound : Bool) × (h : BasedList)
            × IsLedgerOf F.LogFile V.Seal.tells V.Seal.bytes V.held sound h self.old.journal self.old.stock
            × IsJobOn F.LogFile V.Seal.tells V.Seal.bytes V.held sound self.old.journal.log h job.now }
        ensures ended { (sound : Bool) (h : BasedList) → IsLedgerOf F.LogFile V.Seal.tells V.Seal.bytes
            V.held sound h self.old.journal self.old.stock →
            IsJobOn F.LogFile V.Seal.tells V.Seal.bytes V.held sound self.old.journal.log h job.now →
            MatchResult result
            (HasEnded F.LogFile h by job.now self.old.journal self.new.journal self.old.stock self.new.stock)
            (IsUnfinished F.LogFile h by job.now self.old.journal self.new.journal
            self.old.stock self.new.stock) }
        ensures brings { (sound : Bool) (h : BasedList) → IsTrue sound →
            IsLedgerOf F.LogFile V.Seal.tells V.Seal.bytes V.held
            sound h self.old.journal self.old.stock →
            IsJobOn F.LogFile V.Seal.tells V.Seal.bytes V.held sound self.old.journal.log h job.now →
            OnOk result (StillLead V.Seal.bytes (index_in self.old.journal.log) h
            (End by job.now.order.number ∷ []) self.old.journal.account self.new.journal.account) }
        ensures during { self.old.journal.log.is_closed ≡ false →
            LeaveFiles F.LogFile (files_of self.old.journal.log) (files_of self.new.journal.log)
            (IsBeforeOrAfter (held_of self.old.journal.log) (End by job.now.order.number ∷ [])) }
        ensures safe { (sound : Bool) (h : BasedList) → IsTrue sound →
            IsLedgerOf F.LogFile V.Seal.tells V.Seal.bytes V.held
            sound h self.old.journal self.old.stock →
            IsJobOn F.LogFile V.Seal.tells V.Seal.bytes V.held sound self.old.journal.log h job.now →
            StaysSafe F.LogFile (V.held job.now.vault) self.new.journal.log h
            (End by job.now.order.number ∷ []) result }
    {
        if self.journal.log().is_closed() {
            return Err(FinishWhy::Stopped {
                at: self.journal.account().at(),
            });
        }
        let Some(segment) = job.merged()? else {
            // The job is done.
            unreachable!()
        };
        self.stock.reserve_retired()?;
        // The codebook is the index's, and the next Pid is one.
        self.journal.log().book().known();
        let _small = self.journal.account().standing(self.journal.log().params());
        match self.journal.log_end(by, segment) {
            Ok(()) => Ok(Receipt {
                at: self.journal.account().at(),
            }),
            Err(Unlogged::Memory) => Err(FinishWhy::Memory),
            Err(Unlogged::Fault) => Err(FinishWhy::LogFault),
        }
    }
}
