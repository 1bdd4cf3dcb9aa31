// How a Pid joins the runs: as adding 1 carries binary digits.
ghost use Rattle.std.specs.Prelude.{◌≡◌, ◌+◌, ◌≤◌, ◌++◌, ◌∷◌, [], length, take, IfOk};
ghost use Rattle.ann_dead.specs.Pids.{union_of};
ghost use Rattle.ann_dead.specs.Digits.{carried};
ghost use Rattle.ann_dead.specs.Run.{IsRun};
ghost use Rattle.ann_dead.specs.Dead.{total, sizes, AreRuns};

use crate::merge::merged;
use crate::run::Run;
use std::alloc::{AllocError, Global};

// How many of the runs stay, and the run that the Pid makes with the others. Runs of one size are merged, from the
// last on: a Pid alone with a run of one, the two with a run of two, and so on.
pub(crate) fn carry(alloc: Global, runs: &[Run], pid: u32) -> Result<(usize, Run), AllocError>
    requires runs { AreRuns runs.now }
    requires new { length (union_of (runs.now ++ (pid ∷ []) ∷ [])) ≡ total runs.now + 1 }
    ensures kept { IfOk result (λ made. made.0 ≤ length runs.now) }
    ensures run { IfOk result (λ made. IsRun made.1) }
    ensures pids { IfOk result (λ made.
        union_of (take made.0 runs.now ++ made.1 ∷ []) ≡ union_of (runs.now ++ (pid ∷ []) ∷ [])) }
    ensures total { IfOk result (λ made. total (take made.0 runs.now ++ made.1 ∷ []) ≡ total runs.now + 1) }
    ensures sizes { IfOk result (λ made.
        sizes (take made.0 runs.now ++ made.1 ∷ []) ≡ carried (sizes runs.now) 1) }
{
    let mut pids = vec![in alloc; pid]?;
    let mut kept = runs.len();
    while kept > 0 {
        let last = runs[kept - 1].pids();
        if last.len() != pids.len() {
            break;
        }
        pids = merged(alloc, last, pids.as_slice())?;
        kept -= 1;
    }
    Ok((kept, Run::new(pids)?))
}
