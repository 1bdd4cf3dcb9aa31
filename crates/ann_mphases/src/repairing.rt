ghost use Rattle.std.specs.Prelude.{◌≡◌, ◌≤◌, ◌<◌, ◌*◌, length, IfOk, IfErr};
ghost use Rattle.ann_mdelete.specs.declared.refused.WorkRefused.TheVariants.{Memory};
ghost use Rattle.ann_mphases.specs.Repaired.{MayRepair, RepairView, ranked_piece, ranked_rows};

use crate::joining::join;
use crate::workers::loaded_for;
use ann_crew::{Gate, Stretch, Task, run};
use ann_mdelete::{Decoded, Lists, Loaded, WorkRefused, repair_piece};
use ann_mplan::Packing;
use ann_types::Params;
use std::alloc::{AllocError, Global};
use std::marker::Model;
use std::thread::Threads;

/// All rows of the old long-term graph, and which of them survive.
#[derive(Drop)]
pub(crate) struct Repairing<'a> {
    pub(crate) lists: &'a Lists,
    pub(crate) decoded: &'a Decoded,
    pub(crate) gone: &'a [bool],
    pub(crate) params: &'a Params,
    pub(crate) packing: &'a Packing,
    pub(crate) alloc: Global,
}

impl<'a> Model for Repairing<'a> {
    ghost use Rattle.std.specs.Prelude.{◌≡◌, length};
    ghost use Rattle.ann_mdelete.specs.Rows.{left_rows};
    ghost use Rattle.ann_mphases.specs.Repaired.{MayRepair, RepairView};

    ghost Value = { RepairView };

    ghost view = { λ r. record { lists = r.lists.now; vectors = r.decoded.now; gone = r.gone.now; params = r.params.now } };

    ghost invariant = { λ r. MayRepair (record { lists = r.lists.now; vectors = r.decoded.now; gone = r.gone.now; params = r.params.now })
        × (r.packing.now ≡ left_rows r.gone.now 0 (length r.gone.now)) };
}

impl<'a> Repairing<'a> {
    /// The lists of the piece of a number after the phase, by ranks. The only error is want of memory.
    fn repair(&self, scratch: &mut Loaded, number: u32) -> Result<Lists, AllocError>
        requires { 256 * number < length self.now.lists }
        ensures { IfOk result (λ lists. lists ≡ ranked_piece self.now number) }
    {
        let _rows = self.decoded.len();
        repair_piece(
            self.lists,
            self.decoded,
            self.gone,
            256 * number,
            self.params,
            scratch,
        )?;
        let mut lists = Lists::new(self.alloc);
        self.packing.add_piece(scratch, &mut lists)?;
        Ok(lists)
    }
}

impl<'a> Task<Loaded> for Repairing<'a> {
    type Piece = Lists;

    ghost use Rattle.std.specs.Prelude.{◌≡◌, length};
    ghost use Rattle.std.proofs.Common.{refl};
    ghost use Rattle.ann_mdelete.specs.declared.refused.WorkRefused.TheVariants.{Memory};
    ghost use Rattle.ann_mplan.specs.Old.{pieces_of};
    ghost use Rattle.ann_mphases.specs.Repaired.{ranked_piece};

    ghost count = { λ t. pieces_of (length t.lists) };

    ghost is_piece = { λ t number lists. lists ≡ ranked_piece t number };

    ghost goes = { λ t old new. Unit {0} };

    ghost causes = { λ t old new why. why ≡ Memory };

    fn work(&self, worker: &mut Loaded, number: u32) -> Result<Lists, WorkRefused> {
        Ok(self.repair(worker, number)?)
    }

    ghost stays = { λ t u. tt };

    ghost goes_on = { λ t u v w a b. tt };

    ghost caused = { λ t u v w why a b. b };

    ghost memory = { λ t u v a. refl };
}

/// The lists of all rows that survive after the Delete phase, by ranks (FreshDiskANN, section 5.3).
///
/// # Errors
///
/// Want of memory.
pub(crate) fn repair_all<R: Threads + Sync, G: Gate + Sync>(
    rt: &R,
    gate: &G,
    task: &Repairing,
    workers: usize,
) -> Result<Lists, WorkRefused>
    requires some { 0 < workers }
    requires few { workers ≤ 16 }
    ensures repaired { IfOk result (λ lists. lists ≡ ranked_rows task.now 0 (length task.now.gone)) }
    ensures refused { IfErr result (λ why. why ≡ Memory) }
{
    let alloc = task.alloc;
    let mut scratches = loaded_for(alloc, workers)?;
    let stretch = Stretch {
        phase: 1,
        first: 0,
        count: task.decoded.len().div_ceil(256),
    };
    let pieces = run(rt, alloc, gate, task, stretch, &mut scratches)?;
    Ok(join(alloc, &pieces)?)
}
