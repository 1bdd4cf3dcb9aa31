ghost use Rattle.std.specs.Prelude.{◌≡◌, ◌<◌, [], length, IfOk, OnOk};

use ann_greedy::Graph;
use ann_insert::{PutScratch, put};
use ann_table::Table;
use ann_types::Params;
use std::alloc::{AllocError, Global};
use std::test::Fail;

// Puts these points into an empty table, with the Pids 0, 1 and so on, and tags from 10 on.
fn put_all(
    table: &mut Table,
    scratch: &mut PutScratch,
    points: &[[u8; 2]],
) -> Result<(), AllocError>
    requires empty { table.old.nodes ≡ [] }
    requires width { table.old.params.d ≡ 2 }
    requires few { length points.now < 100 }
    ensures { OnOk result (length table.new.nodes ≡ length points.now) }
{
    for i in 0..points.len() {
        put(table, scratch, i as u32, i as u64 + 10, &points[i])?;
    }
    Ok(())
}

// An empty table of vectors of two components, with R of two and an alpha of one.
fn empty(alloc: Global) -> Result<Table, AllocError>
    ensures empty { IfOk result (λ table. table.nodes ≡ []) }
    ensures width { IfOk result (λ table. table.params.d ≡ 2) }
{
    let Some(params) = Params::new(2, 2, 10, 1, 1, 1, 1, 100) else {
        return Err(AllocError);
    };
    Ok(Table::new(alloc, &params))
}

// Whether the lists are those of the four points, and the last row is the last point.
fn is_pruned(table: &Table) -> bool
    requires { length table.now.nodes ≡ 4 }
{
    table.neighbours(0) == [2, 3].as_slice()
        && table.neighbours(1) == [0, 3].as_slice()
        && table.neighbours(2) == [0].as_slice()
        && table.neighbours(3) == [0, 1].as_slice()
        && table.entry() == Some(0)
        && table.tag(3) == 13
        && table.pid(3) == 3
        && table.vector(3) == [105, 100].as_slice()
}

// Four points on a line: the first is linked to all others, and its list of three is pruned to the third and the fourth.
fn put_four(table: &mut Table, alloc: Global) -> Result<(), AllocError>
    requires empty { table.old.nodes ≡ [] }
    requires width { table.old.params.d ≡ 2 }
    ensures { OnOk result (length table.new.nodes ≡ 4) }
{
    let mut scratch = PutScratch::new(alloc)?;
    let points = [[100, 100], [110, 100], [90, 100], [105, 100]];
    put_all(table, &mut scratch, &points)
}

// Whether the first list is pruned.
fn prunes_the_first(alloc: Global) -> Result<bool, AllocError> {
    let mut table = empty(alloc)?;
    put_four(&mut table, alloc)?;
    Ok(is_pruned(&table))
}

#[test]
fn lists_past_the_degree_are_pruned(rt: HostRuntime) -> Result<(), Fail> {
    assert!(rt; prunes_the_first(rt.alloc())?);
    Ok(())
}
