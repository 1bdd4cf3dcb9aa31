ghost use Rattle.std.specs.Prelude.{◌≡◌, ◌≤◌, ◌<◌, ◌+◌, IsTrue, false, None, Some, All, IfOk, OnOk};
ghost use Rattle.ann_segment.specs.Directory.{Item};

use crate::beam::are_hits;
use crate::points::{codebook, params, put, segment, two_points};
use ann_beam::Desk;
use ann_pq::Codebook;
use ann_segment::Segment;
use ann_types::{Ask, Params, Pid, Tag, Vector};
use ann_vault::{MemoryEye, MemorySeal};
use ann_view::{Op, View};
use std::alloc::{AllocError, Global};
use std::sync::Arc;
use std::test::Fail;

// The codebook in which each centroid is its number.
fn shared_book(alloc: Global) -> Result<Arc<Codebook>, AllocError>
    ensures sizes { IfOk result (λ book. (book.value.d ≡ 1) × (book.value.m ≡ 1)) }
{
    let book = codebook(alloc, 0xFF)?;
    let shared = Arc::new(alloc, book)?;
    Ok(shared)
}

// Whether a segment's Pids are below one.
fn is_below(segment: &Segment<MemorySeal>, next: Pid) -> bool
    ensures { IsTrue result → All (λ (x : Item). x.0 < next) segment.now.items }
{
    for row in 0..segment.count() {
        if segment.pid(row) >= next {
            return false;
        }
    }
    true
}

// The segment 5 of two points at 10 and 20, whose Pids are below one, with another byte in a place.
fn shared_segment(
    alloc: Global,
    params: &Params,
    next: Pid,
    change: (usize, u8),
) -> Result<Arc<Segment<MemorySeal>>, Fail>
    ensures codes { IfOk result (λ segment. segment.value.m ≡ params.now.m) }
    ensures below { IfOk result (λ segment. All (λ (x : Item). x.0 < next) segment.value.items) }
{
    let mut bytes = two_points(alloc, 5, [10, 20], [10, 20])?;
    put(&mut bytes, &[change]);
    let segment = segment(alloc, 5, &bytes, params)?;
    if !is_below(&segment, next) {
        return Err("a Pid".into());
    }
    Ok(Arc::new(alloc, segment)?)
}

/// The point with a tag at ten times the tag.
pub(crate) fn insert(view: &mut View<MemorySeal>, alloc: Global, tag: u8) -> Result<(), Fail>
    requires tag { tag ≤ 5 }
    requires going { view.old.closed ≡ false }
    requires width { view.old.params.d ≡ 1 }
    requires room { (view.old.at ≤ 1000) × (view.old.next ≤ 1000) }
    ensures going { OnOk result (view.new.closed ≡ false) }
    ensures same { OnOk result (view.new.params ≡ view.old.params) }
    ensures begun { OnOk result (view.new.memory.begun ≡ view.old.memory.begun) }
    ensures counted { OnOk result ((view.new.at ≡ view.old.at + 1) × (view.new.next ≡ view.old.next + 1)) }
{
    let vector = Vector::copy(alloc, &[10 * tag])?;
    view.apply(&Op::Insert {
        tag: Tag::from(tag),
        vector,
    })?;
    Ok(())
}

// Fills an empty view with so many points.
fn fill(view: &mut View<MemorySeal>, alloc: Global, count: u8) -> Result<(), Fail>
    requires few { count ≤ 5 }
    requires going { view.old.closed ≡ false }
    requires width { view.old.params.d ≡ 1 }
    requires empty { (view.old.at ≡ 0) × (view.old.next ≡ 0) }
    ensures going { OnOk result (view.new.closed ≡ false) }
    ensures same { OnOk result (view.new.params ≡ view.old.params) }
    ensures begun { OnOk result (view.new.memory.begun ≡ view.old.memory.begun) }
    ensures few { OnOk result ((view.new.at ≤ 1000) × (view.new.next ≤ 1000)) }
{
    for tag in 1..=count {
        insert(view, alloc, tag)?;
    }
    Ok(())
}

// A merge of both points of a view of two, with a delete of the first while it is open. Before its end it has this many
// frozen graphs, and deleted points or none.
fn merge(
    view: &mut View<MemorySeal>,
    segment: Arc<Segment<MemorySeal>>,
) -> Result<(usize, bool), Fail>
    requires going { view.old.closed ≡ false }
    requires begun { view.old.memory.begun ≡ None }
    requires room { view.old.at ≤ 1000 }
    requires codes { segment.value.m ≡ view.old.params.m }
    requires below { All (λ (x : Item). x.0 < view.old.next) segment.value.items }
    ensures going { OnOk result (view.new.closed ≡ false) }
{
    view.apply(&Op::Begin)?;
    let frozen = view.frozen_of_begin()?;
    let dead = view.dead_of_begin()?;
    view.apply(&Op::Delete { pid: 0 })?;
    view.apply(&Op::End { segment })?;
    Ok((frozen.len(), dead.is_empty()))
}

// Up to how many points there are and a view with them that is merged or not, what is wanted at which place, at how many
// entries it is found, and the tags and distances.
type Search = (u32, u8, bool, (u16, u16, u8), u64, &'static [(u64, u32)]);

const SEARCHES: [Search; 2] = [
    // Two frozen graphs of two points, and one point in the graph that takes new ones.
    (
        2,
        5,
        false,
        (5, 10, 0),
        5,
        &[(1, 100), (2, 400), (3, 900), (4, 1600), (5, 2500)],
    ),
    // The delete after the Begin holds after the End.
    (100, 2, true, (2, 4, 10), 5, &[(2, 100)]),
];

// What a search by a pin of a view finds: from how many entries.
fn search_pinned(
    view: &View<MemorySeal>,
    desk: &mut Desk,
    eye: &mut MemoryEye,
    ask: &Ask,
) -> Result<u64, Fail> {
    view.known();
    view.near(desk, ask)?;
    let found = shared(view.pin()?).disk(desk, eye, ask)?;
    Ok(found.at)
}

// Whether a search finds this much from so many entries, and whether the same by a pin does.
fn finds_on(
    view: &View<MemorySeal>,
    desk: &mut Desk,
    eye: &mut MemoryEye,
    ask: &Ask,
    (at, wanted): (u64, &[(u64, u32)]),
) -> Result<(bool, bool), Fail> {
    let found = view.search(desk, eye, ask)?;
    let first = found.at == at && are_hits(desk, wanted);
    let found = search_pinned(view, desk, eye, ask)?;
    Ok((first, found == at && are_hits(desk, wanted)))
}

// The same with a desk and an eye of its own.
fn finds(
    alloc: Global,
    params: &Params,
    view: &View<MemorySeal>,
    ask: &Ask,
    wanted: (u64, &[(u64, u32)]),
) -> Result<(bool, bool), Fail> {
    let mut eye = MemoryEye::new(alloc, &[])?;
    let mut desk = Desk::new(alloc, params)?;
    finds_on(view, &mut desk, &mut eye, ask, wanted)
}

// A value that may go to another thread and be shared by several.
fn shared<T: Send + Sync>(value: T) -> T
    ensures { result ≡ value }
{
    value
}

// Merges a view of two points, and says whether that leaves what it should.
fn merges_two(view: &mut View<MemorySeal>, alloc: Global, params: &Params) -> Result<bool, Fail>
    requires going { view.old.closed ≡ false }
    requires begun { view.old.memory.begun ≡ None }
    requires room { view.old.at ≤ 1000 }
    requires codes { view.old.params ≡ params.now }
    ensures going { OnOk result (view.new.closed ≡ false) }
{
    let segment = shared_segment(alloc, params, view.next(), (0, b'A'))?;
    Ok(merge(view, segment)? == (1, true))
}

// Fills an empty view, and merges it or not.
fn fill_and_merge(
    view: &mut View<MemorySeal>,
    alloc: Global,
    params: &Params,
    count: u8,
    merges: bool,
) -> Result<bool, Fail>
    requires going { view.old.closed ≡ false }
    requires width { (view.old.params.d ≡ 1) × (view.old.params ≡ params.now) }
    requires begun { view.old.memory.begun ≡ None }
    requires empty { (view.old.at ≡ 0) × (view.old.next ≡ 0) }
{
    fill(view, alloc, count.min(5))?;
    if merges && !merges_two(view, alloc, params)? {
        return Ok(false);
    }
    Ok(view.can_begin() && view.segment()?.is_some() == merges)
}

/// A wish for k points with the width l, near x.
pub(crate) fn ask(alloc: Global, (k, l, x): (u16, u16, u8)) -> Result<Ask, Fail> {
    let vector = Vector::copy(alloc, &[x])?;
    match Ask::new(k, l, vector) {
        Some(ask) => Ok(ask),
        None => Err("no ask".into()),
    }
}

// Searches a copy of a view.
fn finds_in_a_copy(
    alloc: Global,
    params: &Params,
    view: &View<MemorySeal>,
    ask: &Ask,
    wanted: (u64, &[(u64, u32)]),
) -> Result<(bool, bool), Fail> {
    let copy = shared(view.copy()?);
    finds(alloc, params, &copy, ask, wanted)
}

// Whether an empty view that is filled as a row of the table says finds what is wanted, and the same by a pin does.
fn fills_and_finds(
    view: &mut View<MemorySeal>,
    alloc: Global,
    params: &Params,
    search: Search,
) -> Result<(bool, bool), Fail>
    requires going { view.old.closed ≡ false }
    requires width { (view.old.params.d ≡ 1) × (view.old.params ≡ params.now) }
    requires begun { view.old.memory.begun ≡ None }
    requires empty { (view.old.at ≡ 0) × (view.old.next ≡ 0) }
{
    let (_freeze_at, count, merges, wish, at, wanted) = search;
    if !fill_and_merge(view, alloc, params, count, merges)? {
        return Ok((false, false));
    }
    let ask = ask(alloc, wish)?;
    finds_in_a_copy(alloc, params, view, &ask, (at, wanted))
}

// The same of a view of its own.
fn is_found(alloc: Global, search: Search) -> Result<(bool, bool), Fail> {
    let params = params(search.0)?;
    let mut view = View::new(alloc, &params, shared_book(alloc)?)?;
    fills_and_finds(&mut view, alloc, &params, search)
}

// The first search that doesn't.
fn wrong_search(alloc: Global) -> Result<Option<usize>, Fail> {
    for (number, search) in SEARCHES.iter().enumerate() {
        if is_found(alloc, *search)? != (true, true) {
            return Ok(Some(number));
        }
    }
    Ok(None)
}

#[test]
fn finds_live_points(rt: HostRuntime) -> Result<(), Fail> {
    assert_eq!(rt; wrong_search(rt.alloc())?, None);
    Ok(())
}

// Replaces the first point of a view by one at 12, and closes it.
fn replace_first(view: &mut View<MemorySeal>, alloc: Global) -> Result<(), Fail>
    requires going { view.old.closed ≡ false }
    requires width { view.old.params.d ≡ 1 }
    requires room { (view.old.at ≤ 1000) × (view.old.next ≤ 1000) }
{
    let vector = Vector::copy(alloc, &[12])?;
    view.apply(&Op::Replace {
        tag: 1,
        gone: 0,
        vector,
    })?;
    view.apply(&Op::Close)?;
    Ok(())
}

/// The view from entry 4 on of the segment, which has another byte in a place.
pub(crate) fn resumed(
    alloc: Global,
    params: &Params,
    change: (usize, u8),
) -> Result<View<MemorySeal>, Fail>
    requires one { (params.now.d ≡ 1) × (params.now.m ≡ 1) }
    ensures going { IfOk result (λ view. view.closed ≡ false) }
    ensures width { IfOk result (λ view. view.params.d ≡ 1) }
    ensures room { IfOk result (λ view. (view.at ≤ 100) × (view.next ≤ 100)) }
{
    let segment = shared_segment(alloc, params, 2, change)?;
    Ok(View::resume(alloc, params, shared_book(alloc)?, 4, 2, segment)?)
}

// The length of the list once the first point was replaced, and whether that point and the other are found at 10, also by
// a pin.
fn replaces_and_finds(
    view: &mut View<MemorySeal>,
    alloc: Global,
    params: &Params,
) -> Result<(u64, (bool, bool)), Fail>
    requires going { view.old.closed ≡ false }
    requires width { view.old.params.d ≡ 1 }
    requires room { (view.old.at ≤ 1000) × (view.old.next ≤ 1000) }
{
    replace_first(view, alloc)?;
    let ask = ask(alloc, (2, 4, 10))?;
    let found = finds(alloc, params, view, &ask, (5, &[(1, 4), (2, 100)]))?;
    Ok((view.at(), found))
}

// The same of a view that goes on from the segment.
fn goes_on(alloc: Global) -> Result<(u64, (bool, bool)), Fail> {
    let params = params(100)?;
    let mut view = resumed(alloc, &params, (0, b'A'))?;
    replaces_and_finds(&mut view, alloc, &params)
}

#[test]
fn goes_on_from_a_segment(rt: HostRuntime) -> Result<(), Fail> {
    assert_eq!(rt; goes_on(rt.alloc())?, (5, (true, true)));
    Ok(())
}
