ghost use Rattle.std.specs.Prelude.{◌≡◌, length, IfOk};

use crate::points::{codebook, params, put, segment, two_points};
use ann_beam::{Desk, SearchRefused, beam};
use ann_dead::Dead;
use ann_pq::Codebook;
use ann_segment::Segment;
use ann_types::{Ask, Params, Vector};
use ann_vault::{MemoryEye, MemorySeal};
use std::alloc::Global;
use std::test::Fail;

/// How many hits are wanted, the deleted Pid, which call of the eye fails, which byte of the segment is another, and
/// what is found at 9 of two points at 8 and 10, of codes 0 and 16.
type Case = (
    u16,
    u32,
    u64,
    (usize, u8),
    Result<&'static [(u64, u32)], SearchRefused>,
);

const BEAMS: [Case; 7] = [
    // Both are equally far, whereas by their codes the second is nearer.
    (2, 9, 3, (0, b'A'), Ok(&[(1, 1), (2, 1)])),
    (1, 9, 3, (0, b'A'), Ok(&[(1, 1)])),
    (2, 1, 3, (0, b'A'), Ok(&[(1, 1)])),
    (2, 0, 3, (0, b'A'), Ok(&[(2, 1)])),
    // Two blocks are read, so the second call of the eye is there to fail, with a deleted point too.
    (2, 9, 2, (0, b'A'), Err(SearchRefused::Disk)),
    (2, 1, 2, (0, b'A'), Err(SearchRefused::Disk)),
    (
        2,
        9,
        3,
        (12288, 7),
        Err(SearchRefused::BadSegment { block: 3 }),
    ),
];

/// Whether these tags and distances stand on a desk.
pub(crate) fn are_hits(desk: &Desk, wanted: &[(u64, u32)]) -> bool {
    for (hit, (tag, distance)) in desk.hits().iter().zip(wanted) {
        if hit.tag != *tag || hit.distance != *distance {
            return false;
        }
    }
    desk.hits().len() == wanted.len()
}

// What is wanted at 9.
fn ask(alloc: Global, k: u16) -> Result<Ask, Fail>
    ensures { IfOk result (λ ask. length ask.vector ≡ 1) }
{
    let vector = Vector::copy(alloc, &[9])?;
    match Ask::new(k, 4, vector) {
        Some(ask) => Ok(ask),
        None => Err("no ask".into()),
    }
}

// The deleted points.
fn dead(alloc: Global, pid: u32) -> Result<Dead, Fail> {
    let mut dead = Dead::new(alloc);
    dead.add(pid)?;
    Ok(dead)
}

// Whether a beam that ended so, with this on its desk, found what is wanted.
fn is_found(
    desk: &Desk,
    found: Result<(), SearchRefused>,
    wanted: Result<&[(u64, u32)], SearchRefused>,
) -> bool {
    match (found, wanted) {
        (Ok(()), Ok(hits)) => are_hits(desk, hits),
        (Err(why), Err(wanted)) => why == wanted,
        _ => false,
    }
}

// Whether a beam in this segment finds what the case says.
fn finds(
    alloc: Global,
    segment: &Segment<MemorySeal>,
    book: &Codebook,
    desk: &mut Desk,
    params: &Params,
    case: &Case,
) -> Result<bool, Fail>
    requires one { params.now.d ≡ 1 }
    requires book { (book.now.d ≡ params.now.d) × (book.now.m ≡ params.now.m) }
    requires code { segment.now.m ≡ params.now.m }
{
    let (k, deleted, failing, _change, wanted) = *case;
    let ask = ask(alloc, k)?;
    let dead = dead(alloc, deleted)?;
    let mut eye = MemoryEye::new(alloc, &[failing])?;
    desk.restart(k.clamp(1, 1000));
    let found = beam(segment, book, &mut eye, desk, &ask, params, &dead);
    Ok(is_found(desk, found, wanted))
}

// The segment of a case.
fn segment_of(alloc: Global, params: &Params, case: &Case) -> Result<Segment<MemorySeal>, Fail>
    ensures codes { IfOk result (λ segment. segment.m ≡ params.now.m) }
{
    let mut bytes = two_points(alloc, 13, [0, 16], [8, 10])?;
    put(&mut bytes, &[case.3]);
    segment(alloc, 13, &bytes, params)
}

// The first case in which something else is found.
fn wrong_case(
    alloc: Global,
    book: &Codebook,
    desk: &mut Desk,
    params: &Params,
) -> Result<Option<usize>, Fail>
    requires one { params.now.d ≡ 1 }
    requires book { (book.now.d ≡ params.now.d) × (book.now.m ≡ params.now.m) }
{
    for (number, case) in BEAMS.iter().enumerate() {
        let segment = segment_of(alloc, params, case)?;
        if !finds(alloc, &segment, book, desk, params, case)? {
            return Ok(Some(number));
        }
    }
    Ok(None)
}

// The same with a codebook whose centroids are multiples of 16, and a desk.
fn wrong_beam(alloc: Global) -> Result<Option<usize>, Fail> {
    let params = params(100)?;
    let book = codebook(alloc, 0xF0)?;
    let mut desk = Desk::new(alloc, &params)?;
    wrong_case(alloc, &book, &mut desk, &params)
}

#[test]
fn beams_of_two_points(rt: HostRuntime) -> Result<(), Fail> {
    assert_eq!(rt; wrong_beam(rt.alloc())?, None);
    Ok(())
}
