ghost use Rattle.std.specs.Prelude.{◌≡◌, ◌≤◌, false, IfOk};

use crate::points::params;
use crate::view::{ask, insert, resumed};
use ann_beam::{Desk, SearchRefused};
use ann_types::{NewPoint, Params, Vector};
use ann_vault::{MemoryEye, MemorySeal};
use ann_view::{CollectRefused, Op, PointList, View};
use std::alloc::Global;
use std::test::Fail;

/// The Pid, the tag and the component of a point.
type Row = (u32, u64, u8);

/// Which call of the eye fails, which byte of the segment is another, whether the view has further points and deleted
/// ones, what the collect answers, and the points that it leaves.
type Case = (
    u64,
    (usize, u8),
    bool,
    Result<(), CollectRefused>,
    &'static [Row],
);

const COLLECTS: [Case; 5] = [
    // The second point of the segment, the first of a frozen graph, and the one in the graph that takes new points.
    (
        9,
        (0, b'A'),
        true,
        Ok(()),
        &[(1, 2, 20), (2, 3, 30), (4, 5, 50)],
    ),
    (9, (0, b'A'), false, Ok(()), &[(0, 1, 10), (1, 2, 20)]),
    // The second node block, and the second read.
    (
        9,
        (12288, 7),
        false,
        Err(CollectRefused::BadSegment { block: 3 }),
        &[(0, 1, 10)],
    ),
    (
        2,
        (0, b'A'),
        false,
        Err(CollectRefused::Disk),
        &[(0, 1, 10)],
    ),
    (1, (0, b'A'), true, Err(CollectRefused::Disk), &[]),
];

// Three more points, of which two freeze, and a deleted point in the segment and in the frozen graph.
fn add_and_delete(view: &mut View<MemorySeal>, alloc: Global) -> Result<(), Fail>
    requires going { view.old.closed ≡ false }
    requires width { view.old.params.d ≡ 1 }
    requires room { (view.old.at ≤ 100) × (view.old.next ≤ 100) }
{
    insert(view, alloc, 3)?;
    insert(view, alloc, 4)?;
    insert(view, alloc, 5)?;
    view.apply(&Op::Delete { pid: 0 })?;
    view.apply(&Op::Delete { pid: 3 })?;
    Ok(())
}

// Whether these points stand in a list.
fn are_points(points: &PointList, wanted: &[Row]) -> bool {
    for (point, (pid, tag, component)) in points.items().iter().zip(wanted) {
        if point.pid != *pid
            || point.tag != *tag
            || point.vector.bytes() != [*component].as_slice()
        {
            return false;
        }
    }
    points.items().len() == wanted.len()
}

// A list with a point of no view.
fn stale_list(alloc: Global) -> Result<PointList, Fail> {
    let mut points = PointList::new(alloc);
    points.push(NewPoint {
        pid: 9,
        tag: 9,
        vector: Vector::copy(alloc, &[9])?,
    })?;
    Ok(points)
}

// Whether the collect of a view answers and leaves what a case says.
fn collects(alloc: Global, view: &View<MemorySeal>, case: &Case) -> Result<bool, Fail> {
    let (failing, _change, _more, answer, wanted) = *case;
    let mut eye = MemoryEye::new(alloc, &[failing])?;
    let mut points = stale_list(alloc)?;
    let got = view.collect(&mut eye, &mut points);
    Ok(got == answer && are_points(&points, wanted))
}

// The same of the case's view.
fn fills_and_collects(alloc: Global, params: &Params, case: &Case) -> Result<bool, Fail>
    requires one { (params.now.d ≡ 1) × (params.now.m ≡ 1) }
{
    let mut view = resumed(alloc, params, case.1)?;
    if case.2 {
        add_and_delete(&mut view, alloc)?;
    }
    collects(alloc, &view, case)
}

// The first case in which something else comes.
fn wrong_collect(alloc: Global) -> Result<Option<usize>, Fail> {
    let params = params(2)?;
    for (number, case) in COLLECTS.iter().enumerate() {
        if !fills_and_collects(alloc, &params, case)? {
            return Ok(Some(number));
        }
    }
    Ok(None)
}

#[test]
fn collects_live_points(rt: HostRuntime) -> Result<(), Fail> {
    assert_eq!(rt; wrong_collect(rt.alloc())?, None);
    Ok(())
}

// Why a search of a view is refused, with the first byte of the desk's page and how many hits it has.
fn refused_search(
    alloc: Global,
    params: &Params,
    view: &View<MemorySeal>,
) -> Result<(Option<SearchRefused>, u8, usize), Fail> {
    let mut eye = MemoryEye::new(alloc, &[])?;
    let mut desk = Desk::new(alloc, params)?;
    let ask = ask(alloc, (2, 4, 10))?;
    let found = view.search(&mut desk, &mut eye, &ask);
    Ok((found.err(), desk.page()[0], desk.hits().len()))
}

// The same of a segment whose second node block begins with 7.
fn damaged_search(alloc: Global) -> Result<(Option<SearchRefused>, u8, usize), Fail> {
    let params = params(2)?;
    let view = resumed(alloc, &params, (12288, 7))?;
    refused_search(alloc, &params, &view)
}

#[test]
fn shows_the_bad_block(rt: HostRuntime) -> Result<(), Fail> {
    let bad = Some(SearchRefused::BadSegment { block: 3 });
    assert_eq!(rt; damaged_search(rt.alloc())?, (bad, 7, 0));
    Ok(())
}
