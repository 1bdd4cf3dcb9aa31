// Where a merge begins, or goes on.
ghost use Rattle.std.specs.Prelude.{◌≡◌, [], ◌∷◌, false, Bool, length, IsSome, IfErr, MatchResult};
ghost use Rattle.ann_types.specs.Fold.{fold_of};
ghost use Rattle.ann_types.specs.Lists.{BasedList};
ghost use Rattle.ann_types.specs.declared.entry.Entry.TheVariants.{Begin};
ghost use Rattle.ann_log.specs.Appended.{IsSameLog};
ghost use Rattle.ann_log.specs.LogView.{files_of, held_of, IsBeforeOrAfter};
ghost use Rattle.ann_log.specs.Told.{LeaveFiles};
ghost use Rattle.ann_journal.specs.Journal.{index_in};
ghost use Rattle.ann_index.specs.Index.{IsIndexOf, eye_count, kept_of};
ghost use Rattle.ann_index.specs.Stages.{IsOut, IsUntaken};
ghost use Rattle.ann_index.specs.Steps.{IsOpened, IsStart};

use crate::refusal::MergeRefused;
use ann_disk::LogFile;
use ann_journal::Receipt;
use ann_ledger::{Ledger, Unopened};
use ann_merge::Job;
use ann_showing::show_all;
use ann_vault::{Eye, Vault};
use ann_view::View;
use std::alloc::Global;

/// How far the list of a ledger is logged.
fn receipt<F: LogFile, V: Vault, E: Eye<Seal = V::Seal>>(ledger: &Ledger<F, V, E>) -> Receipt
    ensures { result.at ≡ ledger.now.journal.account.at }
{
    Receipt {
        at: ledger.journal.account().at(),
    }
}

/// Opens a merge and shows its Begin, unless one is open. Whether a Begin was logged.
fn open_shown<F: LogFile, V: Vault, E: Eye<Seal = V::Seal>>(
    ledger: &mut Ledger<F, V, E>,
    view: &mut View<V::Seal>,
) -> Result<bool, MergeRefused>
    requires open { ledger.old.journal.log.is_closed ≡ false }
    requires list { (sound : Bool) × (h : BasedList) × IsIndexOf F.LogFile V.Seal.tells V.Seal.bytes
        V.held sound h h (kept_of ledger.old.journal ledger.old.stock view.old) }
    ensures opened { (sound : Bool) (h : BasedList) → IsIndexOf F.LogFile V.Seal.tells V.Seal.bytes
        V.held sound h h (kept_of ledger.old.journal ledger.old.stock view.old) →
        IsOpened F.LogFile V.Seal.tells V.Seal.bytes V.held V.faults E.faults sound
        h ledger.old.journal.log ledger.old.stock.tools
        (kept_of ledger.new.journal ledger.new.stock view.new) result }
    ensures same_log { IsSameLog ledger.old.journal.log ledger.new.journal.log }
    ensures stock { ledger.new.stock ≡ ledger.old.stock }
    ensures untaken { (sound : Bool) (h : BasedList) → IsIndexOf F.LogFile V.Seal.tells V.Seal.bytes
        V.held sound h h (kept_of ledger.old.journal ledger.old.stock view.old) →
        IfErr result (IsUntaken F.LogFile h ledger.old.journal.log ledger.new.journal.log) }
    ensures goes_on { (sound : Bool) (h : BasedList) → IsIndexOf F.LogFile V.Seal.tells V.Seal.bytes
        V.held sound h h (kept_of ledger.old.journal ledger.old.stock view.old) →
        IsSome (fold_of (index_in ledger.old.journal.log) h).begun →
        ledger.new.journal.log ≡ ledger.old.journal.log }
    ensures during { LeaveFiles F.LogFile (files_of ledger.old.journal.log) (files_of ledger.new.journal.log)
        (IsBeforeOrAfter (held_of ledger.old.journal.log) (Begin 0 ∷ [])) }
{
    match ledger.open_merge(0, view) {
        Ok(false) => Ok(false),
        Ok(true) => match show_all(&mut ledger.journal, view) {
            Ok(()) => Ok(true),
            Err(_) => Err(MergeRefused::MemoryLogged {
                receipt: receipt(ledger),
            }),
        },
        Err(Unopened::Nothing { at }) => Err(MergeRefused::Nothing { at }),
        Err(Unopened::Memory) => Err(MergeRefused::Memory),
        Err(Unopened::LogFault) => Err(MergeRefused::LogFault),
    }
}

/// The job of a merge, which is out: the one that was given back, or that of the open Begin, which is logged and shown first
/// where none is open. All of the list is shown.
pub(crate) fn start<F: LogFile, V: Vault, E: Eye<Seal = V::Seal>>(
    alloc: Global,
    ledger: &mut Ledger<F, V, E>,
    view: &mut View<V::Seal>,
) -> Result<Job<V, E>, MergeRefused>
    requires open { ledger.old.journal.log.is_closed ≡ false }
    requires list { (sound : Bool) × (h : BasedList) × IsIndexOf F.LogFile V.Seal.tells V.Seal.bytes
        V.held sound h h (kept_of ledger.old.journal ledger.old.stock view.old) }
    ensures started { (sound : Bool) (h : BasedList) → IsIndexOf F.LogFile V.Seal.tells V.Seal.bytes
        V.held sound h h (kept_of ledger.old.journal ledger.old.stock view.old) →
        IsStart F.LogFile V.Seal.tells V.Seal.bytes V.held V.faults E.faults sound
        h ledger.old.journal.log ledger.old.stock.tools
        (kept_of ledger.new.journal ledger.new.stock view.new) result }
    ensures same_log { IsSameLog ledger.old.journal.log ledger.new.journal.log }
    // Where a merge is open already, nothing is logged.
    ensures goes_on { (sound : Bool) (h : BasedList) → IsIndexOf F.LogFile V.Seal.tells V.Seal.bytes
        V.held sound h h (kept_of ledger.old.journal ledger.old.stock view.old) →
        IsSome (fold_of (index_in ledger.old.journal.log) h).begun →
        ledger.new.journal.log ≡ ledger.old.journal.log }
    ensures taken { MatchResult result (IsOut ledger.old.stock ledger.new.stock)
        (λ why. ledger.new.stock ≡ ledger.old.stock) }
    ensures untaken { (sound : Bool) (h : BasedList) → IsIndexOf F.LogFile V.Seal.tells V.Seal.bytes
        V.held sound h h (kept_of ledger.old.journal ledger.old.stock view.old) →
        IfErr result (IsUntaken F.LogFile h ledger.old.journal.log ledger.new.journal.log) }
    ensures eyes { MatchResult result (λ job. length job.eyes ≡ eye_count ledger.old.stock.tools)
        (λ why. ledger.new.stock ≡ ledger.old.stock) }
    ensures during { LeaveFiles F.LogFile (files_of ledger.old.journal.log) (files_of ledger.new.journal.log)
        (IsBeforeOrAfter (held_of ledger.old.journal.log) (Begin 0 ∷ [])) }
{
    let _open = ledger.journal.log().is_closed();
    if let Some(job) = ledger.take_again() {
        return Ok(job);
    }
    let logged = open_shown(ledger, view)?;
    match ledger.take(alloc, view) {
        Ok(job) => Ok(job),
        Err(_) => Err(if logged {
            MergeRefused::MemoryLogged {
                receipt: receipt(ledger),
            }
        } else {
            MergeRefused::Memory
        }),
    }
}
