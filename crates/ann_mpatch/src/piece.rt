ghost use Rattle.std.specs.Prelude.{◌<◌, [], length, OnOk};
ghost use Rattle.ann_mpatch.specs.Plan.{IsPlan, piece_size};
ghost use Rattle.ann_mpatch.specs.Patched.{IsPatched, standing};
ghost use Rattle.ann_mpatch.specs.Phase.{AreMerged};

use crate::blocks::PieceBlocks;
use crate::plan::PatchPlan;
use ann_mdelete::WorkRefused;
use ann_vault::{Eye, Sealed};

/// Leaves the node blocks of the merged rows from `first` to at most `first + 255` (the Patch phase of StreamingMerge;
/// FreshDiskANN, section 5.3). Each survivor among them is read once; the new points come from the plan.
///
/// # Errors
///
/// `Disk` where a read failed, `BadSegment` with the first block that was read and is outside the format, or `Memory`. The
/// blocks may then hold anything.
pub fn patch_piece<S: Sealed, E: Eye<Seal = S>>(
    plan: &PatchPlan<S>,
    eye: &mut E,
    first: u32,
    blocks: &mut PieceBlocks,
) -> Result<(), WorkRefused>
    requires plan { IsPlan plan.now }
    requires first { first < length plan.now.decoded }
    ensures patched { IsPatched S.tells S.bytes plan.now first (piece_size plan.now first)
        (standing [] (E.reads eye.old) (E.faults eye.old))
        (standing blocks.new (E.reads eye.new) (E.faults eye.new)) result }
    // Where the plan is that of a Patch phase, they are the blocks of the merged graph.
    ensures merged { S.tells → OnOk result (AreMerged S.bytes plan.now first blocks.new) }
{
    blocks.bytes.clear();
    let count = (plan.decoded.len() - first).min(256);
    for i in 0..count {
        plan.add_row(eye, first + i, &mut blocks.scratch, &mut blocks.bytes)?;
    }
    Ok(())
}
