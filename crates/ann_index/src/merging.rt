// Merges.
ghost use Rattle.std.specs.Prelude.{◌≡◌, ◌≤◌, ◌<◌, true, false, Bool};
ghost use Rattle.ann_types.specs.Lists.{BasedList};
ghost use Rattle.ann_log.specs.Appended.{IsSameLog};
ghost use Rattle.ann_log.specs.LogView.{files_of, held_of};
ghost use Rattle.ann_log.specs.Told.{LeaveFiles};
ghost use Rattle.ann_vault.specs.Counted.{CountsFault};
ghost use Rattle.ann_journal.specs.Journal.{index_in};
ghost use Rattle.ann_index.specs.Devices.{DevicesGoOn};
ghost use Rattle.ann_index.specs.Index.{IsIndexOf, eye_count, kept_of};
ghost use Rattle.ann_index.specs.Left.{LeavesBy};
ghost use Rattle.ann_index.specs.Merged.{IsMergeOf, IsOfMerge};
ghost use Rattle.ann_index.specs.declared.refusal.MergeRefused.TheVariants.{LogFault};

use crate::begin::start;
use crate::ending::end_shown;
use crate::index::Index;
use crate::refusal::{MergeRefused, Merged};
use crate::working::work_out;
use ann_disk::LogFile;
use ann_ledger::Ledger;
use ann_merge::Gate;
use ann_showing::show_all;
use ann_vault::{Eye, Sealed, Vault};
use ann_view::View;
use std::alloc::Global;
use std::thread::Threads;

/// Merges what a ledger's list has in memory, and shows the merge.
fn merge_shown<F, S, V, E, R, G>(
    alloc: Global,
    ledger: &mut Ledger<F, V, E>,
    view: &mut View<S>,
    rt: &R,
    workers: u32,
    gate: &G,
) -> Result<Merged, MergeRefused>
where
    F: LogFile,
    S: Sealed + Send + Sync,
    V: Vault<Seal = S>,
    E: Eye<Seal = S> + Send,
    R: Threads + Sync,
    G: Gate + Sync,
    requires workers { (0 < workers) × (workers ≤ 16) }
    requires enough { workers ≤ eye_count ledger.old.stock.tools }
    requires list { (sound : Bool) × (h : BasedList) × (shown : BasedList) × IsIndexOf F.LogFile
        S.tells S.bytes V.held sound h shown (kept_of ledger.old.journal ledger.old.stock view.old) }
    ensures merged { (sound : Bool) (h shown : BasedList) → IsIndexOf F.LogFile
        S.tells S.bytes V.held sound h shown (kept_of ledger.old.journal ledger.old.stock view.old) →
        IsMergeOf F.LogFile S.tells S.bytes V.held V.faults E.faults
        sound h shown ledger.old.journal.log ledger.old.stock.tools
        (kept_of ledger.new.journal ledger.new.stock view.new) result }
    ensures stopped { ledger.old.journal.log.is_closed ≡ true →
        kept_of ledger.new.journal ledger.new.stock view.new
        ≡ kept_of ledger.old.journal ledger.old.stock view.old }
    ensures devices { DevicesGoOn V.faults E.reads E.faults ledger.old.stock.tools ledger.new.stock.tools }
    ensures left { (sound : Bool) (h shown : BasedList) → IsIndexOf F.LogFile
        S.tells S.bytes V.held sound h shown (kept_of ledger.old.journal ledger.old.stock view.old) →
        LeavesBy F.LogFile h ledger.old.journal.log ledger.new.journal.log
        ledger.old.stock ledger.new.stock S.tells S.bytes V.held V.faults E.reads result }
    ensures eyes { eye_count ledger.new.stock.tools ≡ eye_count ledger.old.stock.tools }
    ensures same_log { IsSameLog ledger.old.journal.log ledger.new.journal.log }
    ensures during { (sound : Bool) (h shown : BasedList) → IsIndexOf F.LogFile
        S.tells S.bytes V.held sound h shown (kept_of ledger.old.journal ledger.old.stock view.old) →
        ledger.old.journal.log.is_closed ≡ false →
        LeaveFiles F.LogFile (files_of ledger.old.journal.log) (files_of ledger.new.journal.log)
        (IsOfMerge (index_in ledger.old.journal.log) h (held_of ledger.old.journal.log)) }
{
    if ledger.journal.log().is_closed() {
        return Err(MergeRefused::Stopped {
            at: ledger.journal.account().at(),
        });
    }
    show_all(&mut ledger.journal, view)?;
    let job = start(alloc, ledger, view)?;
    let done = work_out(ledger, job, rt, workers, gate)?;
    let merged = end_shown(ledger, view, done)?;
    // A segment whose removal fails is in no list, and is removed when the place is opened again.
    let _removed = ledger.clear();
    Ok(merged)
}

impl<F: LogFile, S: Sealed + Send + Sync, V: Vault<Seal = S>, E: Eye<Seal = S> + Send> Index<
    F,
    V,
    E,
> {
    /// Moves what the index has in memory into a new segment, and takes the deleted points out of the long-term graph
    /// (StreamingMerge of FreshDiskANN, section 5.3). It goes by so many threads, 1 to 16, each with an eye of the index, and
    /// passes the gate at each step. A merge that has begun and isn't done goes on. Where the place is sound, the segment's
    /// bytes don't depend on the number of threads.
    ///
    /// # Errors
    ///
    /// `Stopped` where the log is closed; `Nothing` exactly where no merge is open and there is nothing to merge; `Memory`;
    /// `LogFault` where the log failed, which is closed then; `Disk` where the vault or a worker's eye failed; `BadSegment`
    /// where a block of the old segment isn't in the format; and `MemoryLogged` where the Begin or the End is logged, and there
    /// was no memory to go on. The merge stays open where its Begin is logged, and a later call goes on with it.
    pub fn merge<R: Threads + Sync, G: Gate + Sync>(
        &mut self,
        rt: &R,
        workers: u32,
        gate: &G,
    ) -> Result<Merged, MergeRefused>
        requires workers { (0 < workers) × (workers ≤ 16) }
        requires enough { workers ≤ eye_count self.old.kept.stock.tools }
        ensures merged { (sound : Bool) (h shown : BasedList)
            → IsIndexOf F.LogFile S.tells S.bytes V.held sound h shown self.old.kept
            → IsMergeOf F.LogFile S.tells S.bytes V.held V.faults E.faults sound h shown
            self.old.kept.journal.log self.old.kept.stock.tools self.new.kept result }
        ensures stopped { self.old.kept.journal.log.is_closed ≡ true → self.new ≡ self.old }
        // The vault and the eyes are those that were there, and no count of theirs falls.
        ensures devices { DevicesGoOn V.faults E.reads E.faults
            self.old.kept.stock.tools self.new.kept.stock.tools }
        // A refusal takes no job, or gives it back; and where the log failed, one frame is in doubt.
        ensures left { (sound : Bool) (h shown : BasedList)
            → IsIndexOf F.LogFile S.tells S.bytes V.held sound h shown self.old.kept
            → LeavesBy F.LogFile h self.old.kept.journal.log self.new.kept.journal.log
            self.old.kept.stock self.new.kept.stock S.tells S.bytes V.held V.faults E.reads result }
        ensures eyes { eye_count self.new.kept.stock.tools ≡ eye_count self.old.kept.stock.tools }
        ensures same_log { IsSameLog self.old.kept.journal.log self.new.kept.journal.log }
        ensures rest { self.new ≡ record self.old { kept = self.new.kept } }
        // The log's count of faults rises by one where the answer is `LogFault`, and else stays.
        ensures cause { CountsFault (λ why. why ≡ LogFault) result
            (F.faults self.old.kept.journal.log.log) (F.faults self.new.kept.journal.log.log) }
        // A crash at any moment leaves the list as it was, with the Begin of the merge, or with its End too.
        ensures during { (sound : Bool) (h shown : BasedList)
            → IsIndexOf F.LogFile S.tells S.bytes V.held sound h shown self.old.kept
            → self.old.kept.journal.log.is_closed ≡ false
            → LeaveFiles F.LogFile (files_of self.old.kept.journal.log) (files_of self.new.kept.journal.log)
            (IsOfMerge (index_in self.old.kept.journal.log) h (held_of self.old.kept.journal.log)) }
    {
        merge_shown(
            self.alloc,
            &mut self.ledger,
            &mut self.view,
            rt,
            workers,
            gate,
        )
    }
}
