ghost use Rattle.std.specs.Prelude.{◌≢◌, ◌<◌, ◌^◌, length};

use crate::rows::{params, vectors};
use ann_mpatch::patch;
use ann_prune::Candidates;
use arrayvec::ArrayVec;
use std::alloc::Global;
use std::test::Fail;

// The list of a row of these components that has one neighbour, and to which two later rows are linked.
fn patched(
    alloc: Global,
    components: &[u8],
    row: u32,
    own: u32,
    first: u32,
    second: u32,
) -> Result<ArrayVec<u32, 128>, Fail>
    requires row { (row < length components.now) × (own ≢ row) }
    requires later { (own < first) × (row < first) × (first < second) }
    requires inside { second < length components.now }
    requires few { length components.now < 2 ^ 32 }
{
    let decoded = vectors(alloc, components)?;
    let mut candidates = Candidates::new(alloc)?;
    let mut list = ArrayVec::new();
    patch(
        &decoded,
        row,
        &[own],
        &[first, second],
        &params()?,
        &mut candidates,
        &mut list,
    )?;
    Ok(list)
}

#[test]
fn the_new_points_nearest_to_a_row_replace_a_far_one(rt: HostRuntime) -> Result<(), Fail> {
    let alloc = rt.alloc();
    let components = [10, 30, 20, 21];
    let first = patched(alloc, &components, 0, 1, 2, 3)?;
    let second = patched(alloc, &components, 1, 0, 2, 3)?;
    assert!(rt; first.as_slice() == [2].as_slice() && second.as_slice() == [3].as_slice());
    Ok(())
}

// A prune would leave out the point at 30 for the one at 20.
#[test]
fn a_set_of_r_members_isnt_pruned(rt: HostRuntime) -> Result<(), Fail> {
    let decoded = vectors(rt.alloc(), &[10, 30, 20])?;
    let mut candidates = Candidates::new(rt.alloc())?;
    let mut list = ArrayVec::new();
    patch(
        &decoded,
        0,
        &[1],
        &[2],
        &params()?,
        &mut candidates,
        &mut list,
    )?;
    assert!(rt; list.as_slice() == [1, 2].as_slice());
    Ok(())
}
