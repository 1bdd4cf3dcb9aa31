ghost use Rattle.std.specs.Prelude.{◌<◌, IfOk, All};
ghost use Rattle.ann_graph_tests.specs.Grid.{apart_on_grid, grid_itself, grid_symmetric};

use ann_prune::{Candidates, Metric, prune, prune_newer};
use ann_types::Params;
use arrayvec::ArrayVec;
use std::alloc::{AllocError, Global};
use std::test::Fail;

/// Nine points in three rows of three, ten apart: (0,0), (10,0), (20,0), (0,10) and so on.
struct Grid;

impl Metric for Grid {
    ghost apart = { λ grid x y. apart_on_grid x y };

    ghost size = { λ grid. 9 };

    ghost near_itself = { λ grid x. grid_itself x };

    ghost symmetric = { λ grid x y. grid_symmetric x y };

    fn count(&self) -> u32 {
        9
    }

    fn distance(&self, x: u32, y: u32) -> u32 {
        let across = 10 * (x % 3).abs_diff(y % 3);
        let down = 10 * (x / 3).abs_diff(y / 3);
        across * across + down * down
    }
}

/// R and alpha as a fraction, the point that is pruned, its candidates, and which of them it keeps.
const KEPT: [((u16, u16, u16), u32, &[u32], &[u32]); 10] = [
    // 4 * 100 <= 400
    ((2, 2, 1), 0, &[1, 2], &[1]),
    ((2, 2, 1), 0, &[2, 1], &[1]),
    // 4 * 100 > 200
    ((2, 2, 1), 0, &[1, 4], &[1, 4]),
    // 100 <= 200
    ((2, 1, 1), 0, &[4, 1], &[1]),
    ((2, 1, 1), 4, &[0, 1], &[1]),
    // 9 * 100 > 4 * 200, though 3 * 100 <= 2 * 200
    ((2, 3, 2), 0, &[1, 4], &[1, 4]),
    // The nearest is tried first, and the kept ones stand in ascending order.
    ((2, 2, 1), 8, &[0, 7], &[0, 7]),
    // One more than R would be kept, and of equally near ones the least are.
    ((3, 2, 1), 4, &[7, 5, 3, 1], &[1, 3, 5]),
    ((4, 2, 1), 4, &[7, 5, 3, 1, 7], &[1, 3, 5, 7]),
    ((2, 2, 1), 4, &[], &[]),
];

fn on_grid(alloc: Global, rows: &[u32]) -> Result<Candidates, AllocError>
    ensures { IfOk result (λ candidates. All (λ row. row < 9) candidates.rows) }
{
    let mut candidates = Candidates::new(alloc)?;
    for row in rows {
        candidates.add(*row % 9)?;
    }
    Ok(candidates)
}

// What is kept of these candidates, with all pairs tried, and where the pairs below row 1 are settled: there is one row
// alone, so that none there leaves out another.
fn is_kept(
    alloc: Global,
    params: &Params,
    p: u32,
    rows: &[u32],
    kept: &[u32],
) -> Result<bool, AllocError> {
    let mut candidates = on_grid(alloc, rows)?;
    let mut out = ArrayVec::new();
    out.push(8);
    prune(&Grid, p % 9, &mut candidates, params, &mut out);
    let first = out.as_slice() == kept;
    let mut again = on_grid(alloc, rows)?;
    prune_newer(&Grid, p % 9, &mut again, 1, params, &mut out);
    Ok(first && out.as_slice() == kept)
}

// The first row of the table of which something else is kept.
fn wrong_row(alloc: Global) -> Result<Option<usize>, AllocError> {
    for (row, ((r, a, b), p, rows, kept)) in KEPT.iter().enumerate() {
        let Some(params) = Params::new(2, *r, 1, *a, *b, 1, 1, 1) else {
            return Ok(Some(row));
        };
        if !is_kept(alloc, &params, *p, rows, kept)? {
            return Ok(Some(row));
        }
    }
    Ok(None)
}

#[test]
fn keeps_what_none_leaves_out(rt: HostRuntime) -> Result<(), Fail> {
    assert_eq!(rt; wrong_row(rt.alloc())?, None);
    Ok(())
}
