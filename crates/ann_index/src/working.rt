// Working the job of a merge.
ghost use Rattle.std.specs.Prelude.{◌≡◌, ◌≤◌, ◌<◌, false, Bool, length, MatchResult};
ghost use Rattle.ann_types.specs.Lists.{BasedList};
ghost use Rattle.ann_stock.specs.Stock.{Out};
ghost use Rattle.ann_ledger.specs.Ledger.{IsJobOn, IsLedgerOf};
ghost use Rattle.ann_index.specs.Devices.{JobGoesOn};
ghost use Rattle.ann_index.specs.Index.{eye_count};
ghost use Rattle.ann_index.specs.Stages.{IsUndone};
ghost use Rattle.ann_index.specs.Steps.{IsWorked};

use crate::refusal::MergeRefused;
use ann_disk::LogFile;
use ann_ledger::Ledger;
use ann_merge::{Gate, Job};
use ann_vault::{Eye, Sealed, Vault};
use std::thread::Threads;

/// Works the job that is out, by so many threads. It is done then, and still out; or it is refused, and given back.
pub(crate) fn work_out<F, S, V, E, R, G>(
    ledger: &mut Ledger<F, V, E>,
    job: Job<V, E>,
    rt: &R,
    workers: u32,
    gate: &G,
) -> Result<Job<V, E>, MergeRefused>
where
    F: LogFile,
    S: Sealed + Send + Sync,
    V: Vault<Seal = S>,
    E: Eye<Seal = S> + Send,
    R: Threads + Sync,
    G: Gate + Sync,
    requires open { ledger.old.journal.log.is_closed ≡ false }
    requires out { ledger.old.stock.tools ≡ Out }
    requires workers { (0 < workers) × (workers ≤ 16) }
    requires enough { workers ≤ length job.eyes }
    requires list { (sound : Bool) × (h : BasedList)
        × IsLedgerOf F.LogFile S.tells S.bytes V.held sound h ledger.old.journal ledger.old.stock
        × IsJobOn F.LogFile S.tells S.bytes V.held sound ledger.old.journal.log h job }
    ensures worked { (sound : Bool) (h : BasedList)
        → IsLedgerOf F.LogFile S.tells S.bytes V.held sound h ledger.old.journal ledger.old.stock
        → IsJobOn F.LogFile S.tells S.bytes V.held sound ledger.old.journal.log h job
        → IsWorked F.LogFile S.tells S.bytes V.held V.faults E.faults sound h
        ledger.old.journal ledger.new.journal ledger.old.stock ledger.new.stock job result }
    ensures works { MatchResult result (λ worked. JobGoesOn V.faults E.reads E.faults job worked
        × (ledger.new.stock ≡ ledger.old.stock))
        (IsUndone S.tells S.bytes V.faults E.reads E.faults job ledger.old.stock ledger.new.stock) }
    ensures eyes { MatchResult result (λ worked. length worked.eyes ≡ length job.eyes)
        (λ why. eye_count ledger.new.stock.tools ≡ length job.eyes) }
{
    // While the log is open, the job stays right as it is worked.
    let _open = ledger.is_closed();
    let mut job = job;
    match job.work(rt, workers, gate) {
        Ok(()) => Ok(job),
        Err(why) => {
            ledger.give_back(job);
            Err(MergeRefused::from(why))
        }
    }
}
