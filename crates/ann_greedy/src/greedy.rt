ghost use Rattle.std.specs.Prelude.{◌≡◌, ◌<◌, [], ◌∷◌, Some, length, All, IfSome};
ghost use Rattle.ann_greedy.specs.Rows.{ground_at};
ghost use Rattle.ann_greedy.specs.Shows.{IsOf, IsKept, Meets, ShowsWalk, StepsOn, IsWalked, IsNoted};

use crate::graph::Graph;
use ann_lanes::{squared, touched};
use ann_pool::Pool;
use std::alloc::AllocError;

/// From how many components on a vector is read ahead of its use: a shorter one shares its line of the cache with others.
const LONG: usize = 32;

/// Offers a row at its distance, unless the pool knows that it was offered before.
fn offer<G: Graph>(graph: &G, query: &[u8], pool: &mut Pool, row: u32)
    requires row { row < (G.rows graph.now).count }
    requires width { length query.now ≡ (G.rows graph.now).width }
    requires of { IsOf (G.rows graph.now) query.now pool.old }
    ensures kept { IsKept (G.rows graph.now) query.now pool.old pool.new }
    ensures shows { Meets (G.rows graph.now) query.now (row ∷ []) pool.old pool.new }
{
    if pool.has_met(row) {
        return;
    }
    pool.offer(squared(query, graph.vector(row)), row);
}

/// Reads a little of the vector of each row that the pool doesn't know, so that these come from memory side by side.
fn touch_all<G: Graph>(graph: &G, pool: &Pool, rows: &[u32]) -> u8
    requires { All (λ row. row < (G.rows graph.now).count) rows.now }
{
    let mut byte = 0;
    for ahead in rows {
        if !pool.has_met(*ahead) {
            byte ^= touched(graph.vector(*ahead));
        }
    }
    byte
}

/// Offers rows in turn.
fn offer_all<G: Graph>(graph: &G, query: &[u8], pool: &mut Pool, rows: &[u32])
    requires inside { All (λ row. row < (G.rows graph.now).count) rows.now }
    requires width { length query.now ≡ (G.rows graph.now).width }
    requires of { IsOf (G.rows graph.now) query.now pool.old }
    ensures kept { IsKept (G.rows graph.now) query.now pool.old pool.new }
    ensures shows { Meets (G.rows graph.now) query.now rows.now pool.old pool.new }
{
    if query.len() >= LONG {
        pool.keep_warm(touch_all(graph, pool, rows));
    }
    for row in rows {
        offer(graph, query, pool, *row);
    }
}

/// Visits the next point of a walk from an entry: marks it and meets its neighbours.
fn visit_next<G: Graph>(graph: &G, query: &[u8], pool: &mut Pool) -> Option<u32>
    requires width { length query.now ≡ (G.rows graph.now).width }
    requires of { IsOf (G.rows graph.now) query.now pool.old }
    ensures row { IfSome result (λ row. row < (G.rows graph.now).count) }
    ensures kept { IsKept (G.rows graph.now) query.now pool.old pool.new }
    ensures steps { StepsOn (G.rows graph.now) query.now pool.old pool.new result }
{
    match pool.next_unvisited() {
        Some(item) => {
            offer_all(graph, query, pool, graph.neighbours(item.number));
            Some(item.number)
        }
        None => None,
    }
}

/// Begins a walk at an entry, with the limit that the pool has.
fn begin<G: Graph>(graph: &G, query: &[u8], pool: &mut Pool, entry: u32)
    requires entry { entry < (G.rows graph.now).count }
    requires width { length query.now ≡ (G.rows graph.now).width }
    ensures kept { IsKept (G.rows graph.now) query.now pool.old pool.new }
    ensures shows { ShowsWalk (ground_at (G.rows graph.now) query.now entry) [] pool.new }
{
    pool.clear(pool.limit());
    offer(graph, query, pool, entry);
}

/// Walks from an entry.
fn walk_from<G: Graph>(graph: &G, query: &[u8], pool: &mut Pool, entry: u32)
    requires entry { entry < (G.rows graph.now).count }
    requires width { length query.now ≡ (G.rows graph.now).width }
    ensures { IsWalked (G.rows graph.now) query.now (Some entry) pool.old pool.new }
{
    begin(graph, query, pool, entry);
    for turn in 0..graph.count() {
        match visit_next(graph, query, pool) {
            Some(_row) => {}
            None => break,
        }
    }
}

/// Walks through the graph for a query, as wide as the pool's limit (GreedySearch of DiskANN, section 2.1).
///
/// Leaves in the pool the points near the query, every item marked. Takes no memory.
pub fn walk<G: Graph>(graph: &G, query: &[u8], pool: &mut Pool)
    requires { length query.now ≡ (G.rows graph.now).width }
    ensures { IsWalked (G.rows graph.now) query.now (G.rows graph.now).start pool.old pool.new }
{
    match graph.entry() {
        Some(entry) => walk_from(graph, query, pool, entry),
        None => pool.clear(pool.limit()),
    }
}

/// Walks from an entry and notes the rows in order of visit.
fn walk_noted<G: Graph>(
    graph: &G,
    query: &[u8],
    pool: &mut Pool,
    entry: u32,
    visited: &mut Vec<u32>,
) -> Result<(), AllocError>
    requires entry { entry < (G.rows graph.now).count }
    requires width { length query.now ≡ (G.rows graph.now).width }
    requires empty { visited.old.items ≡ [] }
    ensures { IsNoted (G.rows graph.now) query.now (Some entry) result pool.old pool.new visited.new.items }
{
    begin(graph, query, pool, entry);
    for turn in 0..graph.count() {
        match visit_next(graph, query, pool) {
            Some(row) => visited.push(row)?,
            None => break,
        }
    }
    Ok(())
}

/// As `walk`, and leaves in `visited` the rows that it visited, in order of visit.
///
/// The only error is want of memory for `visited`; it and the pool then hold any rows of the graph.
pub fn walk_visited<G: Graph>(
    graph: &G,
    query: &[u8],
    pool: &mut Pool,
    visited: &mut Vec<u32>,
) -> Result<(), AllocError>
    requires { length query.now ≡ (G.rows graph.now).width }
    ensures { let rows = G.rows graph.now in
        IsNoted rows query.now rows.start result pool.old pool.new visited.new.items }
{
    visited.clear();
    match graph.entry() {
        Some(entry) => walk_noted(graph, query, pool, entry, visited),
        None => {
            pool.clear(pool.limit());
            Ok(())
        }
    }
}
