// Where a merge ends.
ghost use Rattle.std.specs.Prelude.{◌≡◌, [], ◌∷◌, false, Bool, IsSome, length};
ghost use Rattle.ann_types.specs.Lists.{BasedList};
ghost use Rattle.ann_types.specs.declared.entry.Entry.TheVariants.{End};
ghost use Rattle.ann_log.specs.Appended.{IsSameLog};
ghost use Rattle.ann_log.specs.LogView.{files_of, held_of, IsBeforeOrAfter};
ghost use Rattle.ann_log.specs.Told.{LeaveFiles};
ghost use Rattle.ann_index.specs.Index.{eye_count, kept_of};
ghost use Rattle.ann_index.specs.Stages.{EndsBy};
ghost use Rattle.ann_index.specs.Steps.{IsFinish, IsUnderWay};

use crate::refusal::{MergeRefused, Merged};
use ann_disk::LogFile;
use ann_ledger::Ledger;
use ann_merge::Job;
use ann_showing::show_all;
use ann_vault::{Eye, Vault};
use ann_view::View;

/// Logs and shows the End of the open merge, whose job is done and was out. Where it isn't logged, the job is given back.
pub(crate) fn end_shown<F: LogFile, V: Vault, E: Eye<Seal = V::Seal>>(
    ledger: &mut Ledger<F, V, E>,
    view: &mut View<V::Seal>,
    job: Job<V, E>,
) -> Result<Merged, MergeRefused>
    requires open { ledger.old.journal.log.is_closed ≡ false }
    requires done { IsSome job.segment }
    requires list { (sound : Bool) × (h : BasedList) × IsUnderWay F.LogFile V.Seal.tells V.Seal.bytes V.held
        V.faults E.faults sound h (kept_of ledger.old.journal ledger.old.stock view.old) job }
    ensures ended { (sound : Bool) (h : BasedList) → IsUnderWay F.LogFile V.Seal.tells V.Seal.bytes V.held
        V.faults E.faults sound h (kept_of ledger.old.journal ledger.old.stock view.old) job →
        IsFinish F.LogFile V.Seal.tells V.Seal.bytes V.held V.faults E.faults sound h job.order.number
        (kept_of ledger.old.journal ledger.old.stock view.old)
        (kept_of ledger.new.journal ledger.new.stock view.new) result }
    ensures ends { EndsBy ledger.old.stock ledger.new.stock job result }
    ensures eyes { eye_count ledger.new.stock.tools ≡ length job.eyes }
    ensures same_log { IsSameLog ledger.old.journal.log ledger.new.journal.log }
    ensures during { LeaveFiles F.LogFile (files_of ledger.old.journal.log) (files_of ledger.new.journal.log)
        (IsBeforeOrAfter (held_of ledger.old.journal.log) (End 0 job.order.number ∷ [])) }
{
    let segment = job.number();
    match ledger.finish(0, job) {
        Ok(receipt) => match show_all(&mut ledger.journal, view) {
            Ok(()) => Ok(Merged {
                segment,
                at: receipt.at,
            }),
            Err(_) => Err(MergeRefused::MemoryLogged { receipt }),
        },
        Err(refused) => {
            ledger.give_back(refused.job);
            Err(MergeRefused::from(refused.why))
        }
    }
}
