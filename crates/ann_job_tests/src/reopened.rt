//! A view over segments that jobs have sealed, before it is closed and once it is opened again.

ghost use Rattle.std.specs.Prelude.{◌≡◌, ◌≢◌, ◌≤◌, ◌<◌, ◌+◌, false, None, All, map, IsTrue, IfOk, OnOk, MatchOption};
ghost use Rattle.std.specs.Arc.{arc_value};
ghost use Rattle.std.specs.Option.{option_map};
ghost use Rattle.ann_frozen.specs.Frozen.{FrozenView};
ghost use Rattle.ann_segment.specs.Directory.{Item};

use crate::index::{codebook, params};
use crate::old::opened;
use crate::started::{bytes_of, eyes, job};
use ann_beam::Desk;
use ann_dead::Dead;
use ann_disk::MemoryFile;
use ann_frozen::Frozen;
use ann_log::Files;
use ann_merge::NoGate;
use ann_recover::recover;
use ann_segment::Segment;
use ann_types::{Ask, Params, Pid, Vector};
use ann_vault::{MemoryEye, MemorySeal, MemoryVault};
use ann_view::{Op, View};
use std::alloc::Global;
use std::sync::Arc;
use std::test::Fail;
use std::thread::Threads;

// Three points in a line and a merge; then the second is deleted, and a merge links the others. Each entry stands in a frame
// behind an open gate.
const FRAMES: [&[u8]; 9] = [
    &[1, 14, 0, 0, 0, 1, 0, 0, 0, 0, 1, 0, 0, 0, 0, 0, 0, 0, 10],
    &[1, 14, 0, 0, 0, 1, 0, 0, 0, 0, 2, 0, 0, 0, 0, 0, 0, 0, 20],
    &[1, 14, 0, 0, 0, 1, 0, 0, 0, 0, 3, 0, 0, 0, 0, 0, 0, 0, 30],
    &[1, 5, 0, 0, 0, 3, 0, 0, 0, 0],
    &[1, 13, 0, 0, 0, 4, 0, 0, 0, 0, 7, 0, 0, 0, 0, 0, 0, 0],
    &[1, 13, 0, 0, 0, 2, 0, 0, 0, 0, 2, 0, 0, 0, 0, 0, 0, 0],
    &[1, 5, 0, 0, 0, 3, 0, 0, 0, 0],
    &[1, 13, 0, 0, 0, 4, 0, 0, 0, 0, 13, 0, 0, 0, 0, 0, 0, 0],
    &[0],
];

// What stands before the codebook in a log of version 2: d 1, R 2, l_build 10, alpha 1/1, w 1, m 1, freeze_at 100,
// generation 1, and the empty base.
const FRONT: [u8; 61] = [
    1, 65, 78, 78, 76, 79, 71, 48, 50, 1, 0, 2, 0, 10, 0, 1, 0, 1, 0, 1, 0, 1, 0, 0, 0, 100, 0, 0,
    0, 1, 0, 0, 0, 0, 0, 0, 0, 0, 0, 0, 0, 0, 0, 0, 0, 0, 0, 0, 0, 0, 0, 0, 0, 0, 0, 0, 0, 0, 0, 0,
    0,
];

// The log of these entries.
fn log(alloc: Global) -> Result<Vec<u8>, Fail> {
    let mut bytes = FRONT.to_vec(alloc)?;
    bytes.extend_from_slice(codebook(alloc, 1)?.bytes())?;
    for frame in FRAMES {
        bytes.extend_from_slice(frame)?;
    }
    Ok(bytes)
}

// Adds the point with a tag at ten times the tag.
fn insert(view: &mut View<MemorySeal>, alloc: Global, tag: u8) -> Result<(), Fail>
    requires tag { tag ≤ 3 }
    requires going { view.old.closed ≡ false }
    requires width { view.old.params.d ≡ 1 }
    requires room { (view.old.at ≤ 1000) × (view.old.next ≤ 1000) }
    ensures going { OnOk result (view.new.closed ≡ false) }
    ensures same { OnOk result (view.new.params ≡ view.old.params) }
    ensures begun { OnOk result (view.new.memory.begun ≡ view.old.memory.begun) }
    ensures counted { OnOk result ((view.new.at ≡ view.old.at + 1) × (view.new.next ≡ view.old.next + 1)) }
{
    let vector = Vector::copy(alloc, &[10 * tag])?;
    view.apply(&Op::Insert {
        tag: u64::from(tag),
        vector,
    })?;
    Ok(())
}

// Adds three points to an empty view.
fn insert_three(view: &mut View<MemorySeal>, alloc: Global) -> Result<(), Fail>
    requires going { view.old.closed ≡ false }
    requires width { view.old.params.d ≡ 1 }
    requires empty { (view.old.at ≡ 0) × (view.old.next ≡ 0) }
    ensures going { OnOk result (view.new.closed ≡ false) }
    ensures same { OnOk result (view.new.params ≡ view.old.params) }
    ensures begun { OnOk result (view.new.memory.begun ≡ view.old.memory.begun) }
    ensures few { OnOk result (view.new.at ≤ 3) }
{
    insert(view, alloc, 1)?;
    insert(view, alloc, 2)?;
    insert(view, alloc, 3)
}

// The segment of a number in a vault, which isn't the other; 0 stands for none.
fn older(
    alloc: Global,
    vault: &mut MemoryVault,
    old: u64,
    other: u64,
    params: &Params,
) -> Result<Option<Arc<Segment<MemorySeal>>>, Fail>
    ensures codes { IfOk result (λ old.
        MatchOption (option_map arc_value old) (Unit {0}) (λ segment. segment.m ≡ params.now.m)) }
    ensures other { IfOk result (λ old.
        MatchOption (option_map arc_value old) (Unit {0}) (λ segment. other ≢ segment.number)) }
{
    if old == 0 {
        return Ok(None);
    }
    let bytes = bytes_of(alloc, vault, old)?;
    let segment = opened(alloc, old, &bytes, params)?;
    if segment.number() == other {
        return Err("one number".into());
    }
    Ok(Some(Arc::new(alloc, segment)?))
}

// What a job seals of these graphs and of the old segment, without the deleted points.
fn sealed<R: Threads + Sync>(
    rt: &R,
    alloc: Global,
    vault: MemoryVault,
    numbers: (u64, u64),
    frozen: Vec<Arc<Frozen>>,
    gone: Dead,
    params: &Params,
) -> Result<(MemoryVault, Segment<MemorySeal>), Fail>
    requires width { (params.now.d ≡ 1) × (params.now.m ≡ 1) }
    requires graphs { All (λ (f : FrozenView). f.params ≡ params.now) (map arc_value frozen.items) }
    ensures codes { IfOk result (λ sealed. sealed.1.m ≡ params.now.m) }
{
    let (old, number) = numbers;
    let mut vault = vault;
    let old = older(alloc, &mut vault, old, number, params)?;
    let eyes = eyes(alloc, 2, &[])?;
    let book = codebook(alloc, 1)?;
    let mut job = job(alloc, vault, eyes, old, frozen, gone, number, params, book)?;
    job.work(rt, 2, &NoGate)?;
    let mut parts = job.into_parts();
    let bytes = bytes_of(alloc, &mut parts.vault, number)?;
    let segment = opened(alloc, number, &bytes, params)?;
    Ok((parts.vault, segment))
}

// Whether a segment's Pids are below one.
fn is_below(segment: &Segment<MemorySeal>, next: Pid) -> bool
    ensures { IsTrue result → All (λ (x : Item). x.0 < next) segment.now.items }
{
    for row in 0..segment.count() {
        if segment.pid(row) >= next {
            return false;
        }
    }
    true
}

// Merges what a view has in memory into its old segment, under a number.
fn merge<R: Threads + Sync>(
    rt: &R,
    alloc: Global,
    view: &mut View<MemorySeal>,
    vault: MemoryVault,
    numbers: (u64, u64),
    params: &Params,
) -> Result<MemoryVault, Fail>
    requires going { view.old.closed ≡ false }
    requires begun { view.old.memory.begun ≡ None }
    requires room { view.old.at ≤ 1000 }
    requires width { (params.now.d ≡ 1) × (params.now.m ≡ 1) }
    requires same { view.old.params ≡ params.now }
    ensures going { OnOk result (view.new.closed ≡ false) }
    ensures begun { OnOk result (view.new.memory.begun ≡ None) }
    ensures same { OnOk result (view.new.params ≡ view.old.params) }
    ensures at { OnOk result (view.new.at ≡ view.old.at + 2) }
{
    view.apply(&Op::Begin)?;
    let frozen = view.frozen_of_begin()?;
    let gone = view.dead_of_begin()?;
    let (vault, segment) = sealed(rt, alloc, vault, numbers, frozen, gone, params)?;
    if !is_below(&segment, view.next()) {
        return Err("a Pid".into());
    }
    view.apply(&Op::End {
        segment: Arc::new(alloc, segment)?,
    })?;
    Ok(vault)
}

// Does with an empty view what the log says, and gives the vault of its segments.
fn merge_twice<R: Threads + Sync>(
    rt: &R,
    alloc: Global,
    view: &mut View<MemorySeal>,
    params: &Params,
) -> Result<MemoryVault, Fail>
    requires going { view.old.closed ≡ false }
    requires begun { view.old.memory.begun ≡ None }
    requires empty { (view.old.at ≡ 0) × (view.old.next ≡ 0) }
    requires width { (params.now.d ≡ 1) × (params.now.m ≡ 1) }
    requires same { view.old.params ≡ params.now }
{
    insert_three(view, alloc)?;
    let vault = MemoryVault::new(alloc, &[])?;
    let vault = merge(rt, alloc, view, vault, (0, 7), params)?;
    view.apply(&Op::Delete { pid: 1 })?;
    merge(rt, alloc, view, vault, (7, 13), params)
}

// The tags and distances of the two points that a view finds nearest to 30, and from how many entries.
fn found(
    alloc: Global,
    params: &Params,
    view: &View<MemorySeal>,
) -> Result<(u64, [(u64, u32); 2]), Fail> {
    let vector = Vector::copy(alloc, &[30])?;
    let ask = Ask::new(2, 4, vector).ok_or("no ask")?;
    let mut desk = Desk::new(alloc, params)?;
    let mut eye = MemoryEye::new(alloc, &[])?;
    let found = view.search(&mut desk, &mut eye, &ask)?;
    match desk.hits() {
        [first, second] => Ok((
            found.at,
            [(first.tag, first.distance), (second.tag, second.distance)],
        )),
        _ => Err("other points".into()),
    }
}

// What is found before a view is closed.
fn found_before<R: Threads + Sync>(
    rt: &R,
    alloc: Global,
) -> Result<((u64, [(u64, u32); 2]), MemoryVault), Fail> {
    let params = params(1, 10)?;
    let mut view = View::new(alloc, &params, codebook(alloc, 1)?)?;
    let vault = merge_twice(rt, alloc, &mut view, &params)?;
    Ok((found(alloc, &params, &view)?, vault))
}

// What is found once the log of these entries is opened again over this vault, and whether it is the whole list.
fn found_after(alloc: Global, vault: MemoryVault) -> Result<(u64, [(u64, u32); 2]), Fail> {
    let files = Files {
        first: MemoryFile::new(alloc, &log(alloc)?, &[])?,
        second: MemoryFile::new(alloc, &[], &[])?,
    };
    match recover(alloc, files, vault, eyes(alloc, 1, &[])?) {
        Ok(parts) => found(alloc, parts.log.params(), &parts.view),
        Err(refused) => Err(refused.why.into()),
    }
}

#[test]
fn a_view_over_its_segments_is_opened_again(rt: HostRuntime) -> Result<(), Fail> {
    let wanted = (8, [(3, 0), (1, 400)]);
    let (before, vault) = found_before(&rt, rt.alloc())?;
    assert_eq!(rt; before, wanted);
    assert_eq!(rt; found_after(rt.alloc(), vault)?, wanted);
    Ok(())
}
