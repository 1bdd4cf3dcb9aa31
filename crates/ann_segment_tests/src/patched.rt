ghost use Rattle.std.specs.Prelude.{◌≡◌, ◌<◌, ◌∷◌, [], length, IfOk};
ghost use Rattle.ann_mpatch.specs.Plan.{IsPlan};

use crate::points::{params, segment, two_points};
use ann_mdelete::{Decoded, Lists, WorkRefused};
use ann_mpatch::{PatchPlan, PieceBlocks, patch_piece};
use ann_segment::Segment;
use ann_vault::{MemoryEye, MemorySeal};
use std::alloc::Global;
use std::sync::Arc;
use std::test::Fail;

// The lists of two rows that are each other's neighbours, and for each the new ones, which are none.
fn lists(alloc: Global) -> Result<(Lists, Lists), Fail>
    ensures own { IfOk result (λ r. r.0 ≡ (1 ∷ []) ∷ (0 ∷ []) ∷ []) }
    ensures new { IfOk result (λ r. r.1 ≡ [] ∷ [] ∷ []) }
{
    let mut own = Lists::new(alloc);
    own.push(&[1])?;
    own.push(&[0])?;
    let mut new = Lists::new(alloc);
    new.push(&[])?;
    new.push(&[])?;
    Ok((own, new))
}

// The plan of a merge that adds nothing to a segment of two points.
fn plan(alloc: Global, segment: Segment<MemorySeal>) -> Result<PatchPlan<MemorySeal>, Fail>
    requires { 1 < length segment.items }
    ensures sound { IfOk result (λ plan. IsPlan plan) }
    ensures two { IfOk result (λ plan. length plan.decoded ≡ 2) }
{
    let (base, delta) = lists(alloc)?;
    let mut decoded = Decoded::new(alloc);
    decoded.push_vector(&[10])?;
    decoded.push_vector(&[20])?;
    Ok(PatchPlan {
        segment: Some(Arc::new(alloc, segment)?),
        survivors: vec![in alloc; 0, 1]?,
        base,
        delta,
        points: Vec::new(alloc),
        links: Lists::new(alloc),
        decoded,
        params: params(100)?,
    })
}

// What patching the rows of the segment of 10 and 20 gives, where a call of the eye fails.
fn patched(alloc: Global, failing: u64) -> Result<Result<PieceBlocks, WorkRefused>, Fail> {
    let bytes = two_points(alloc, 5, [10, 20], [10, 20])?;
    let segment = segment(alloc, 5, &bytes, &params(100)?)?;
    if segment.count() != 2 {
        return Err("not two rows".into());
    }
    let plan = plan(alloc, segment)?;
    let mut eye = MemoryEye::new(alloc, &[failing])?;
    let mut blocks = PieceBlocks::new(alloc)?;
    match patch_piece(&plan, &mut eye, 0, &mut blocks) {
        Ok(()) => Ok(Ok(blocks)),
        Err(why) => Ok(Err(why)),
    }
}

#[test]
fn a_merge_of_nothing_leaves_the_node_blocks(rt: HostRuntime) -> Result<(), Fail> {
    let bytes = two_points(rt.alloc(), 5, [10, 20], [10, 20])?;
    let Ok(blocks) = patched(rt.alloc(), 9)? else {
        return Err("a refused piece".into());
    };
    assert!(rt; bytes.get(8192..16384) == Some(blocks.bytes()));
    Ok(())
}

#[test]
fn each_read_of_a_piece_may_fail(rt: HostRuntime) -> Result<(), Fail> {
    let first = matches!(patched(rt.alloc(), 1)?, Err(WorkRefused::Disk));
    let second = matches!(patched(rt.alloc(), 2)?, Err(WorkRefused::Disk));
    assert!(rt; first && second);
    Ok(())
}
