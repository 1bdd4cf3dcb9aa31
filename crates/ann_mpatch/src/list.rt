ghost use Rattle.std.specs.Prelude.{◌≡◌, ◌≤◌, ◌<◌, ◌+◌, ◌++◌, length, All, OnOk};
ghost use Rattle.std.specs.List.Sorted.{IsStrictlyIncreasing};
ghost use Rattle.ann_types.specs.Order.{ascending};
ghost use Rattle.ann_types.specs.Kept.{rule_of, within};
ghost use Rattle.ann_prune.specs.Gathered.{AreRows};
ghost use Rattle.ann_mdelete.specs.Decoded.{apart_of};
ghost use Rattle.ann_mpatch.specs.Joined.{ShareNothing};

use ann_lanes::touched;
use ann_mdelete::Decoded;
use ann_prune::{Candidates, prune};
use ann_types::Params;
use arrayvec::ArrayVec;
use std::alloc::AllocError;

/// Reads a little of the vector of each row, so that these come from memory side by side.
fn touch_all(metric: &Decoded, rows: &[u32]) -> u8
    requires { All (λ row. row < length metric.now) rows.now }
{
    let mut byte = 0;
    for row in rows {
        byte ^= touched(metric.vector(*row));
    }
    byte
}

/// Adds rows in turn, and reads a little of their vectors ahead of the prune. The only error is want of memory.
fn gather_warm(
    metric: &Decoded,
    candidates: &mut Candidates,
    rows: &[u32],
) -> Result<(), AllocError>
    requires { All (λ row. row < length metric.now) rows.now }
    ensures { OnOk result (candidates.new.rows ≡ candidates.old.rows ++ rows.now) }
{
    candidates.keep_warm(touch_all(metric, rows));
    for row in rows {
        candidates.add(*row)?;
    }
    Ok(())
}

/// Leaves in `out` the members of two sets that share nothing, in ascending order.
fn join(own: &[u32], delta: &[u32], out: &mut ArrayVec<u32, 128>)
    requires few { length own.now + length delta.now ≤ 128 }
    requires own { IsStrictlyIncreasing own.now }
    requires delta { IsStrictlyIncreasing delta.now }
    requires apart { ShareNothing own.now delta.now }
    ensures { out.new.items ≡ ascending (own.now ++ delta.now) }
{
    out.clear();
    let _ = out.try_extend_from_slice(own);
    let _ = out.try_extend_from_slice(delta);
    out.as_mut_slice().sort_unstable();
}

/// Leaves in `out` the neighbours of a row of the merged graph: its own and the new ones, or what a prune keeps of them
/// where they are more than R (the Patch phase of StreamingMerge; FreshDiskANN, section 5.3), in ascending order.
///
/// Both are rows in ascending order, and they share none.
///
/// # Errors
///
/// Want of memory. The candidates and `out` may then hold anything.
pub fn patch(
    metric: &Decoded,
    p: u32,
    own: &[u32],
    delta: &[u32],
    params: &Params,
    scratch: &mut Candidates,
    out: &mut ArrayVec<u32, 128>,
) -> Result<(), AllocError>
    requires rows { AreRows (length metric.now) p (own.now ++ delta.now) }
    requires own { IsStrictlyIncreasing own.now }
    requires delta { IsStrictlyIncreasing delta.now }
    requires apart { ShareNothing own.now delta.now }
    ensures { let apart = apart_of metric.now in
        let whole = ascending (own.now ++ delta.now) in
        OnOk result (out.new.items ≡ within (rule_of params.now) apart p whole) }
{
    if own.len() + delta.len() <= usize::from(params.r) {
        join(own, delta, out);
        return Ok(());
    }
    scratch.clear();
    gather_warm(metric, scratch, own)?;
    gather_warm(metric, scratch, delta)?;
    prune(metric, p, scratch, params, out);
    Ok(())
}
