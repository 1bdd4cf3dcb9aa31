ghost use Rattle.std.specs.Prelude.{◌≡◌, ◌≤◌, ◌<◌, ◌++◌, ◌∷◌, [], length, All, OnOk, OnErr};
ghost use Rattle.ann_types.specs.Put.{put as put_of};
ghost use Rattle.ann_types.specs.Kept.{rule_of, kept as kept_by};
ghost use Rattle.ann_types.specs.Legal.{pid_end};
ghost use Rattle.ann_table.specs.Node.{node_at, linked, apart_rows, row_pids, graph_of};
ghost use Rattle.ann_insert.specs.Scratch.{IsReady};

use crate::back::link_all_back;
use crate::scratch::PutScratch;
use ann_greedy::{Graph, walk_visited};
use ann_prune::{Candidates, prune};
use ann_table::Table;
use ann_types::{Pid, Tag};
use arrayvec::ArrayVec;
use std::alloc::AllocError;

/// The most candidates of a prune that links back: R neighbours and one more.
const BACK_ROOM: usize = 129;

/// Walks to a vector, and makes room for a row more and for the candidates of every prune that links it.
///
/// The only error is want of memory.
fn prepare(table: &mut Table, scratch: &mut PutScratch, vector: &[u8]) -> Result<(), AllocError>
    requires { length vector.now ≡ table.old.params.d }
    ensures params { table.new.params ≡ table.old.params }
    ensures nodes { table.new.nodes ≡ table.old.nodes }
    ensures spare { OnOk result (1 ≤ table.new.spare) }
    ensures ready { IsReady table.old.params table.old.nodes vector.now result scratch.new }
{
    table.known();
    scratch.candidates.clear();
    scratch.pool.clear(table.params().l_build);
    walk_visited(table, vector, &mut scratch.pool, &mut scratch.visited)?;
    let most = scratch.visited.len().max(BACK_ROOM);
    scratch.candidates.reserve(most as u32)?;
    table.reserve(1)
}

/// Links a row to what it keeps of others.
fn link(
    table: &mut Table,
    candidates: &mut Candidates,
    kept: &mut ArrayVec<u32, 128>,
    row: u32,
    others: &[u32],
)
    requires row { row < length table.old.nodes }
    requires others { All (λ other. other < row) others.now }
    requires empty { candidates.old.rows ≡ [] }
    requires room { length others.now ≤ candidates.old.room }
    ensures params { table.new.params ≡ table.old.params }
    ensures kept { let apart = apart_rows table.old.nodes in
        kept.new.items ≡ kept_by (rule_of table.old.params) apart row others.now }
    ensures nodes { table.new.nodes ≡ linked table.old.nodes row kept.new.items (length table.old.nodes) }
    ensures emptied { candidates.new.rows ≡ [] }
    ensures kept_room { candidates.old.room ≤ candidates.new.room }
{
    candidates.add_all_within(others);
    prune(table, row, candidates, table.params(), kept);
    table.set_kept(row, kept);
}

/// Adds a point to the graph (FreshDiskANN, section 4, insert).
///
/// The new point is linked to what a robust prune keeps of the points that a walk to it visits, and each of these is
/// linked back. Its Pid is above all others and below `2^32 - 1`, and its vector has the index's d components. Takes all
/// its memory before the first change: the only error is want of memory, and the table is then as before.
pub fn put(
    table: &mut Table,
    scratch: &mut PutScratch,
    pid: Pid,
    tag: Tag,
    vector: &[u8],
) -> Result<(), AllocError>
    requires above { All (λ node. node.pid < pid) table.old.nodes }
    requires small { pid < pid_end }
    requires vector { length vector.now ≡ table.old.params.d }
    ensures params { table.new.params ≡ table.old.params }

    // The graph is the one that the definition gives.
    ensures put { let graph = graph_of table.old.nodes in
        OnOk result (graph_of table.new.nodes ≡ put_of table.old.params graph pid tag vector.now) }

    // So the point's row comes behind all others.
    ensures pids { OnOk result (row_pids table.new.nodes ≡ row_pids table.old.nodes ++ pid ∷ []) }

    // A refusal leaves the rows as they were.
    ensures refused { OnErr result (table.new.nodes ≡ table.old.nodes) }
{
    table.known();
    prepare(table, scratch, vector)?;
    let row = Graph::count(table);
    table.add(pid, tag, vector, &[]);
    link(
        table,
        &mut scratch.candidates,
        &mut scratch.kept,
        row,
        &scratch.visited,
    );
    link_all_back(
        table,
        &mut scratch.candidates,
        &mut scratch.kept_back,
        &scratch.kept,
        row,
    );
    Ok(())
}
