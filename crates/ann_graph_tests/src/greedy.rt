ghost use Rattle.ann_graph_tests.specs.Road.{road};

use ann_greedy::{Graph, walk, walk_visited};
use ann_pool::{Item, Pool};
use std::alloc::{AllocError, Global};
use std::test::Fail;

/// Five points on a line, at 0, 10, 20, 30 and 40, each with those beside it as its neighbours.
struct Road;

impl Graph for Road {
    ghost rows = { λ r. road };

    fn count(&self) -> u32 {
        5
    }

    fn entry(&self) -> Option<u32> {
        Some(0)
    }

    fn vector(&self, row: u32) -> &[u8] {
        match row {
            0 => &[0],
            1 => &[10],
            2 => &[20],
            3 => &[30],
            _ => &[40],
        }
    }

    fn neighbours(&self, row: u32) -> &[u32] {
        match row {
            0 => &[1],
            1 => &[0, 2],
            2 => &[1, 3],
            3 => &[2, 4],
            _ => &[3],
        }
    }
}

/// Whether these are the visited items of these rows at these distances.
fn are_near(items: &[Item], near: &[(u32, u32)]) -> bool {
    for (item, (number, distance)) in items.iter().zip(near) {
        if !item.visited || item.number != *number || item.distance != *distance {
            return false;
        }
    }
    items.len() == near.len()
}

/// The width, the query, the rows in order of visit, and those near with their distances.
const WALKS: [(u16, u8, &[u32], &[(u32, u32)]); 7] = [
    (1, 28, &[0, 1, 2, 3], &[(3, 4)]),
    (2, 28, &[0, 1, 2, 3], &[(3, 4), (2, 64)]),
    (3, 28, &[0, 1, 2, 3, 4], &[(3, 4), (2, 64), (4, 144)]),
    // Of equally far ones the smaller row is near, and visited first.
    (1, 25, &[0, 1, 2], &[(2, 25)]),
    (2, 25, &[0, 1, 2, 3], &[(2, 25), (3, 25)]),
    (3, 25, &[0, 1, 2, 3], &[(2, 25), (3, 25), (1, 225)]),
    (1, 0, &[0], &[(0, 0)]),
];

// Whether a walk finds what this row of the table says, with its visits and without.
fn is_walked(
    pool: &mut Pool,
    visited: &mut Vec<u32>,
    (width, query, order, near): (u16, u8, &[u32], &[(u32, u32)]),
) -> Result<bool, AllocError> {
    pool.clear(width.clamp(1, 1000));
    walk_visited(&Road, &[query], pool, visited)?;
    let noted = visited.as_slice() == order && are_near(pool.items(), near);
    walk(&Road, &[query], pool);
    Ok(noted && are_near(pool.items(), near))
}

// The first row of the table that isn't walked so.
fn wrong_walk(pool: &mut Pool, visited: &mut Vec<u32>) -> Result<Option<usize>, AllocError> {
    for (row, case) in WALKS.iter().enumerate() {
        if !is_walked(pool, visited, *case)? {
            return Ok(Some(row));
        }
    }
    Ok(None)
}

// The same with a pool and a list of their own.
fn wrong_row(alloc: Global) -> Result<Option<usize>, AllocError> {
    let mut pool = Pool::with_room(alloc)?;
    let mut visited = vec![in alloc; 9]?;
    wrong_walk(&mut pool, &mut visited)
}

#[test]
fn walks_to_the_nearest(rt: HostRuntime) -> Result<(), Fail> {
    assert_eq!(rt; wrong_row(rt.alloc())?, None);
    Ok(())
}
