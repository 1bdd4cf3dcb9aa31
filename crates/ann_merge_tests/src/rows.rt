//! Lists, decoded vectors and points of one component, which the tests share.

ghost use Rattle.std.specs.Prelude.{◌≡◌, ◌<◌, ◌+◌, ◌-◌, ◌^◌, ◌∷◌, [], All, length, map, IfOk};
ghost use Rattle.std.specs.List.{range_with_len};
ghost use Rattle.ann_types.specs.Legal.{pid_end};
ghost use Rattle.ann_merge_tests.specs.Line.{before, line_list, line_lists};

use ann_mdelete::{Decoded, Lists};
use ann_pq::Codebook;
use ann_types::{NewPoint, Params, Pid, Vector};
use arrayvec::ArrayVec;
use std::alloc::{AllocError, Global};
use std::test::Fail;

/// The parameters of an index of one component, with R of two and codes of one byte.
pub(crate) fn params() -> Result<Params, Fail>
    ensures { IfOk result (λ params. (params.d ≡ 1) × (params.r ≡ 2) × (params.m ≡ 1)) }
{
    match Params::new(1, 2, 10, 1, 1, 1, 1, 100) {
        Some(params) => Ok(params),
        None => Err("no parameters".into()),
    }
}

// The bytes of a codebook of one component in one part. Centroid i is i, of which the mask keeps some bits.
fn centroids(alloc: Global, mask: u8) -> Result<Vec<u8>, AllocError> {
    let mut bytes = b"ANNPQ001\x01\0\x01\0".to_vec(alloc)?;
    for i in 0..=255u8 {
        bytes.push(i & mask)?;
    }
    Ok(bytes)
}

/// That codebook.
pub(crate) fn codebook(alloc: Global, mask: u8) -> Result<Codebook, AllocError>
    ensures { IfOk result (λ book. (book.d ≡ 1) × (book.m ≡ 1)) }
{
    let bytes = centroids(alloc, mask)?;
    Codebook::read(alloc, &bytes, 1, 1).map_err(|_refused| AllocError)
}

// The row before a row of a line.
fn link_before(row: u32, list: &mut ArrayVec<u32, 128>)
    ensures { list.new.items ≡ before row }
{
    list.clear();
    if row > 0 {
        list.push(row - 1);
    }
}

// The neighbours of a row in a line of so many.
fn link_row(count: u32, row: u32, list: &mut ArrayVec<u32, 128>)
    requires { row < count }
    ensures { list.new.items ≡ line_list count row }
{
    link_before(row, list);
    if row + 1 < count {
        list.push(row + 1);
    }
}

/// The lists of a line of so many rows: each is linked to the one before it and to the one behind it.
pub(crate) fn line(alloc: Global, count: u32) -> Result<Lists, AllocError>
    ensures { IfOk result (λ lists. lists ≡ line_lists count count) }
{
    let mut lists = Lists::new(alloc);
    let mut list = ArrayVec::new();
    for row in 0..count {
        link_row(count, row, &mut list);
        lists.push(&list)?;
    }
    Ok(lists)
}

/// Vectors of one component.
pub(crate) fn vectors(alloc: Global, components: &[u8]) -> Result<Decoded, AllocError>
    requires { length components.now < 2 ^ 32 }
    ensures vectors { IfOk result (λ decoded. decoded ≡ map (λ x. x ∷ []) components.now) }
{
    let mut decoded = Decoded::new(alloc);
    for component in components {
        decoded.push_vector(&[*component])?;
    }
    Ok(decoded)
}

/// New points with these components, whose Pids begin with this one; a point's tag is its Pid.
pub(crate) fn points(
    alloc: Global,
    first: Pid,
    components: &[u8],
) -> Result<Vec<NewPoint>, AllocError>
    requires { first + length components.now < 2 ^ 32 - 1 }
    ensures pids { IfOk result (λ points.
        map (λ x. x.pid) points.items ≡ range_with_len first (length components.now)) }
    ensures small { IfOk result (λ points. All (λ x. x.pid < pid_end) points.items) }
    ensures vectors { IfOk result (λ points. All (λ x. length x.vector ≡ 1) points.items) }
{
    let mut points = Vec::new(alloc);
    let mut pid = first;
    for component in components {
        points.push(NewPoint {
            pid,
            tag: u64::from(pid),
            vector: Vector::copy(alloc, &[*component])?,
        })?;
        pid += 1;
    }
    Ok(points)
}
