ghost use Rattle.std.specs.Prelude.{◌≡◌, ◌≤◌, ◌<◌, ◌+◌, ◌++◌, All, drop, length, map, IfOk, IfErr, OnOk};
ghost use Rattle.ann_types.specs.Codes.{decoded as decoded_by};
ghost use Rattle.ann_types.specs.Legal.{pid_end};
ghost use Rattle.ann_mdelete.specs.declared.refused.WorkRefused.TheVariants.{Memory};
ghost use Rattle.ann_mphases.specs.Grown.{IsChosen, IsGrown, IsLinkedOn, MayGrow};
ghost use Rattle.ann_mphases.specs.Index.{index_of};

use crate::linking::{Linking, link_all};
use ann_crew::Gate;
use ann_mdelete::{Decoded, Lists, WorkRefused};
use ann_minsert::{Base, base};
use ann_mplan::invert;
use ann_pq::Codebook;
use ann_types::{NewPoint, Params};
use std::alloc::{AllocError, Global};
use std::thread::Threads;

/// How many new points make the base where none survives.
const FIRST: usize = 1000;

/// What the Insert phase makes of the survivors and the new points.
#[derive(Drop)]
pub(crate) struct Grown {
    /// The neighbours of each row of the base.
    pub(crate) lists: Lists,
    /// The later rows that each of these is linked back to.
    pub(crate) delta: Lists,
    /// The neighbours of each later row.
    pub(crate) links: Lists,
    /// The decoded vector of each row.
    pub(crate) decoded: Decoded,
}

/// The base, and how many of the new points it has: the survivors, or where there are none the first new points
/// (FreshDiskANN, section 5.3). The only error is want of memory.
fn choose(
    alloc: Global,
    lists: Lists,
    decoded: Decoded,
    points: &[NewPoint],
    book: &Codebook,
    params: &Params,
) -> Result<(Base, usize), AllocError>
    requires book { params.now.d ≡ book.now.d }
    requires may { MayGrow book.now.d lists decoded points.now }
    ensures within { IfOk result (λ chosen. chosen.1 ≤ length points.now) }
    ensures chosen { IfOk result (λ chosen. IsChosen (index_of params.now book.now) lists decoded points.now
        chosen.0 (drop chosen.1 points.now)) }
{
    book.known();
    if decoded.len() > 0 {
        let base = Base::of(alloc, lists, decoded)?;
        base.known();
        return Ok((base, 0));
    }
    let first = points.len().min(FIRST);
    let base = base(alloc, &points[..first], book, params)?;
    base.known();
    Ok((base, first))
}

/// Adds the decoded vectors of new points. The only error is want of memory.
fn decode_new(decoded: &mut Decoded, points: &[NewPoint], book: &Codebook) -> Result<(), AllocError>
    requires wide { All (λ vector. length vector ≡ book.now.d) decoded.old }
    requires vectors { All (λ x. length x.vector ≡ book.now.d) points.now }
    requires few { length decoded.old + length points.now ≤ pid_end }
    ensures added { OnOk result (decoded.new
        ≡ decoded.old ++ map (λ x. decoded_by book.now.book x.vector) points.now) }
    ensures wide { OnOk result (All (λ vector. length vector ≡ book.now.d) decoded.new) }
{
    book.known();
    let mut code = [0; 64];
    let code = &mut code[..usize::from(book.m())];
    for point in points {
        book.code(point.vector.bytes(), code);
        decoded.push(book, code)?;
    }
    Ok(())
}

/// Links the new points outside the base, and turns the links round: the Insert phase, and what the Patch phase needs of it
/// (FreshDiskANN, section 5.3).
///
/// # Errors
///
/// Want of memory.
fn link_outside<R: Threads + Sync, G: Gate + Sync>(
    rt: &R,
    alloc: Global,
    gate: &G,
    base: Base,
    outside: &[NewPoint],
    book: &Codebook,
    params: &Params,
    workers: usize,
) -> Result<Grown, WorkRefused>
    requires some { 0 < workers }
    requires few_workers { workers ≤ 16 }
    requires book { params.now.d ≡ book.now.d }
    requires wide { All (λ vector. length vector ≡ book.now.d) base.vectors }
    requires vectors { All (λ x. length x.vector ≡ book.now.d) outside.now }
    requires few { length base.vectors + length outside.now ≤ pid_end }
    ensures linked { IfOk result (IsLinkedOn (index_of params.now book.now) base outside.now) }
    ensures refused { IfErr result (λ why. why ≡ Memory) }
{
    base.known();
    let task = Linking {
        base: &base,
        points: outside,
        book,
        params,
        alloc,
    };
    let links = link_all(rt, gate, &task, workers)?;
    let delta = invert(alloc, &links, base.decoded().len())?;
    let (lists, mut decoded) = base.into_parts();
    decode_new(&mut decoded, outside, book)?;
    Ok(Grown {
        lists,
        delta,
        links,
        decoded,
    })
}

/// The Insert phase of the survivors, by their lists and decoded vectors, and the new points.
///
/// # Errors
///
/// Want of memory.
pub(crate) fn grow<R: Threads + Sync, G: Gate + Sync>(
    rt: &R,
    alloc: Global,
    gate: &G,
    lists: Lists,
    decoded: Decoded,
    points: &[NewPoint],
    book: &Codebook,
    params: &Params,
    workers: usize,
) -> Result<Grown, WorkRefused>
    requires some { 0 < workers }
    requires few { workers ≤ 16 }
    requires book { params.now.d ≡ book.now.d }
    requires may { MayGrow book.now.d lists decoded points.now }
    ensures grown { IfOk result (IsGrown (index_of params.now book.now) lists decoded points.now) }
    ensures refused { IfErr result (λ why. why ≡ Memory) }
{
    let (base, first) = choose(alloc, lists, decoded, points, book, params)?;
    link_outside(
        rt,
        alloc,
        gate,
        base,
        &points[first..],
        book,
        params,
        workers,
    )
}
