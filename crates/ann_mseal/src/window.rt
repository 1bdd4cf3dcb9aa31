// The pieces of the Patch phase, side by side.
ghost use Rattle.std.specs.Prelude.{◌≡◌, ◌≤◌, ◌<◌, ◌+◌, length, IfOk, IfErr};
ghost use Rattle.ann_crew.specs.Crew.{ArePieces};
ghost use Rattle.ann_mcause.specs.Eyes.{AreCause, HaveGone};
ghost use Rattle.ann_mpatch.specs.Plan.{IsPlan, source_for};
ghost use Rattle.ann_mseal.specs.Pieces.{IsMergedPiece, piece_count};

use ann_crew::{Gate, Stretch, Task, run};
use ann_mdelete::WorkRefused;
use ann_mpatch::{PatchPlan, PieceBlocks, patch_piece};
use ann_vault::{Eye, Sealed};
use std::alloc::Global;
use std::marker::Model;
use std::thread::Threads;

/// The work of the Patch phase by a plan, which contracts see as the plan.
#[derive(Drop)]
pub(crate) struct Patching<'a, S: Sealed> {
    alloc: Global,
    plan: &'a PatchPlan<S>,
}

impl<'a, S: Sealed> Model for Patching<'a, S> {
    ghost use Rattle.ann_mpatch.specs.Plan.{IsPlan};
    ghost use Rattle.ann_mpatch.specs.declared.plan.PatchPlan.{PatchPlan};

    ghost Value = { PatchPlan S };

    ghost view = { λ patching. patching.plan.now };

    ghost invariant = { λ patching. IsPlan patching.plan.now };
}

impl<'a, S: Sealed> Patching<'a, S> {
    /// The work by this plan.
    pub(crate) fn by(alloc: Global, plan: &'a PatchPlan<S>) -> Patching<'a, S>
        requires { IsPlan plan.now }
        ensures { result ≡ plan.now }
    {
        Patching { alloc, plan }
    }
}

impl<'a, S: Sealed, E: Eye<Seal = S>> Task<E> for Patching<'a, S> {
    type Piece = PieceBlocks;

    ghost use Rattle.ann_mcause.specs.Eyes.{EyeCauses, EyeGoes};
    ghost use Rattle.ann_mcause.proofs.Watched.{eye_caused, eye_goes_on, eye_memory, eye_stays};
    ghost use Rattle.ann_mpatch.specs.Plan.{source_for};
    ghost use Rattle.ann_mseal.specs.Pieces.{IsMergedPiece, piece_count};

    ghost count = { λ plan. piece_count plan };

    ghost is_piece = { λ plan number blocks. IsMergedPiece S.tells S.bytes plan number blocks };

    ghost goes = { λ plan old new. EyeGoes E.reads E.faults old new };

    ghost causes = { λ plan old new why.
        EyeCauses E.reads E.faults S.tells (source_for S.bytes plan) plan.params old new why };

    fn work(&self, worker: &mut E, number: u32) -> Result<PieceBlocks, WorkRefused> {
        self.plan.decoded.known();
        let mut blocks = PieceBlocks::new(self.alloc)?;
        patch_piece(self.plan, worker, 256 * number, &mut blocks)?;
        Ok(blocks)
    }

    ghost stays = { λ plan eye. eye_stays E.reads E.faults eye };

    ghost goes_on = { λ plan u v w. eye_goes_on E.reads E.faults u v w };

    ghost caused = { λ plan u v w why.
        eye_caused E.reads E.faults S.tells (source_for S.bytes plan) plan.params u v w why };

    ghost memory = { λ plan u v gone.
        eye_memory E.reads E.faults S.tells (source_for S.bytes plan) plan.params u v };
}

/// The node blocks of pieces side by side, as many as `count` from `first` on, in order.
///
/// # Errors
///
/// `Disk` or `BadSegment` of one of the eyes, or `Memory`.
pub(crate) fn patch_window<
    R: Threads + Sync,
    S: Sealed + Send + Sync,
    E: Eye<Seal = S> + Send,
    G: Gate + Sync,
>(
    rt: &R,
    alloc: Global,
    gate: &G,
    plan: &PatchPlan<S>,
    first: u32,
    count: u32,
    eyes: &mut Vec<E>,
) -> Result<Vec<PieceBlocks>, WorkRefused>
    requires plan { IsPlan plan.now }
    requires within { first + count ≤ piece_count plan.now }
    requires some { 0 < length eyes.old.items }
    requires few { length eyes.old.items ≤ 16 }
    ensures eyes { HaveGone E.reads E.faults eyes.old.items eyes.new.items }
    ensures pieces { IfOk result (λ pieces.
        ArePieces (IsMergedPiece S.tells S.bytes plan.now) first count pieces.items) }
    ensures refused { IfErr result (AreCause E.reads E.faults
        S.tells (source_for S.bytes plan.now) plan.now.params eyes.old.items eyes.new.items) }
{
    plan.decoded.known();
    let stretch = Stretch {
        phase: 3,
        first,
        count,
    };
    run(rt, alloc, gate, &Patching::by(alloc, plan), stretch, eyes)
}
