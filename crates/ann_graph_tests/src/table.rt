ghost use Rattle.std.specs.Prelude.{◌≡◌, ◌≤◌, ◌<◌, [], length, IfOk};

use ann_greedy::Graph;
use ann_prune::Metric;
use ann_table::Table;
use ann_types::Params;
use std::alloc::{AllocError, Global};
use std::test::Fail;

// How many rows a graph has.
fn rows<G: Graph>(graph: &G) -> u32
    ensures { result ≡ (G.rows graph.now).count }
{
    graph.count()
}

// The distance between two rows.
fn apart<M: Metric>(metric: &M, x: u32, y: u32) -> u32
    requires x { x < M.size metric.now }
    requires y { y < M.size metric.now }
    ensures { result ≡ M.apart metric.now x y }
{
    metric.distance(x, y)
}

// Two points at (0, 1) and (4, 4), each the other's neighbour.
fn fill(table: &mut Table)
    requires empty { table.old.nodes ≡ [] }
    requires room { 2 ≤ table.old.spare }
    requires width { table.old.params.d ≡ 2 }
    requires degree { table.old.params.r ≡ 2 }
    ensures { length table.new.nodes ≡ 2 }
{
    table.add(3, 30, &[0, 1], &[]);
    table.add(7, 70, &[4, 4], &[]);
    table.set_kept(1, &[0]);
    table.link(0, 1);
}

// A table with these two rows.
fn filled(alloc: Global) -> Result<Table, AllocError>
    ensures { IfOk result (λ table. length table.nodes ≡ 2) }
{
    let Some(params) = Params::new(2, 2, 10, 12, 10, 1, 1, 100) else {
        return Err(AllocError);
    };
    let mut table = Table::new(alloc, &params);
    table.reserve(2)?;
    fill(&mut table);
    Ok(table)
}

// Whether these are those two rows.
fn is_filled(table: &Table) -> bool
    requires { length table.now.nodes ≡ 2 }
{
    rows(table) == 2
        && table.entry() == Some(0)
        && table.pid(1) == 7
        && table.tag(1) == 70
        && table.vector(1) == [4, 4].as_slice()
        && table.neighbours(0) == [1].as_slice()
        && apart(table, 0, 1) == 25
        && table.params().r == 2
}

#[test]
fn rows_keep_what_was_added(rt: HostRuntime) -> Result<(), Fail> {
    assert!(rt; is_filled(&filled(rt.alloc())?));
    Ok(())
}

// Whether the second row has this neighbour and newer, or none and 0.
fn ends_with(table: &Table, neighbours: &[u32], newer: u32) -> bool
    requires { length table.now.nodes ≡ 2 }
{
    table.neighbours(1) == neighbours && table.newer(1) == newer
}

// Whether a copy keeps the neighbours that the table loses.
fn is_kept_by_a_copy(table: &mut Table) -> Result<bool, AllocError>
    requires { length table.old.nodes ≡ 2 }
{
    let copy = table.copy()?;
    table.set_neighbours(1, &[]);
    copy.known();
    Ok(ends_with(table, &[], 0) && ends_with(&copy, &[0], 2))
}

#[test]
fn a_copy_keeps_what_the_table_loses(rt: HostRuntime) -> Result<(), Fail> {
    let mut table = filled(rt.alloc())?;
    assert!(rt; is_kept_by_a_copy(&mut table)?);
    Ok(())
}
