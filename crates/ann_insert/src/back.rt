ghost use Rattle.std.specs.Prelude.{◌≡◌, ◌≢◌, ◌≤◌, ◌<◌, ◌+◌, ◌++◌, ◌∷◌, ℕ, [], length, All};
ghost use Rattle.std.specs.List.Sorted.{IsStrictlyIncreasing};
ghost use Rattle.ann_types.specs.Kept.{rule_of, within};
ghost use Rattle.ann_table.specs.Node.{node_at, linked, apart_rows};
ghost use Rattle.ann_insert.specs.Back.{IsBehind, AreApart, AreSameButLinks, AreLinkedBack, most};

use ann_greedy::Graph;
use ann_lanes::touched;
use ann_prune::{Candidates, prune_newer};
use ann_table::Table;
use arrayvec::ArrayVec;

/// Reads a little of the vector of each row, so that these come from memory side by side.
fn touch_all(table: &Table, rows: &[u32]) -> u8
    requires { All (λ row. row < length table.now.nodes) rows.now }
{
    let mut byte = 0;
    for row in rows {
        byte ^= touched(table.vector(*row));
    }
    byte
}

/// Adds rows in turn, within the room that there is, and reads a little of their vectors ahead of the prune.
fn gather_warm(table: &Table, candidates: &mut Candidates, rows: &[u32])
    requires inside { All (λ row. row < length table.now.nodes) rows.now }
    requires room { length rows.now ≤ candidates.old.room }
    ensures rows { candidates.new.rows ≡ candidates.old.rows ++ rows.now }
    ensures room { candidates.old.room ≤ candidates.new.room + length rows.now }
{
    candidates.keep_warm(touch_all(table, rows));
    candidates.add_all_within(rows);
}

/// Links a row back to a new one: the new one is a neighbour of it, or its neighbours are what a prune keeps where they
/// would be more than R.
fn link_back(
    table: &mut Table,
    candidates: &mut Candidates,
    kept: &mut ArrayVec<u32, 128>,
    row: u32,
    new: u32,
)
    requires row { row < length table.old.nodes }
    requires inside { new < length table.old.nodes }
    requires other { new ≢ row }
    requires behind { IsBehind new (node_at table.old.nodes row) }
    requires empty { candidates.old.rows ≡ [] }
    requires room { most ≤ candidates.old.room }
    ensures params { table.new.params ≡ table.old.params }
    ensures nodes { let rule = rule_of table.old.params in
        let wanted = (node_at table.old.nodes row).links ++ new ∷ [] in
        let links = within rule (apart_rows table.old.nodes) row wanted in
        table.new.nodes ≡ linked table.old.nodes row links (node_at table.new.nodes row).newer }
    ensures emptied { candidates.new.rows ≡ [] }
    ensures kept { most ≤ candidates.new.room }
{
    table.known();
    if table.neighbours(row).len() < usize::from(table.params().r) {
        table.link(row, new);
        return;
    }
    gather_warm(table, candidates, table.neighbours(row));
    candidates.add_within(new);
    prune_newer(
        table,
        row,
        candidates,
        table.newer(row),
        table.params(),
        kept,
    );
    table.set_kept(row, kept);
}

/// Links each of these rows back to a new one.
pub(crate) fn link_all_back(
    table: &mut Table,
    candidates: &mut Candidates,
    kept: &mut ArrayVec<u32, 128>,
    rows: &[u32],
    new: u32,
)
    requires inside { new < length table.old.nodes }
    requires rows { All (λ row. row < new) rows.now }
    requires distinct { IsStrictlyIncreasing rows.now }
    requires behind { All (λ row. IsBehind new (node_at table.old.nodes row)) rows.now }
    requires empty { candidates.old.rows ≡ [] }
    requires room { most ≤ candidates.old.room }
    ensures params { table.new.params ≡ table.old.params }
    ensures same { AreSameButLinks table.old.nodes table.new.nodes }
    ensures linked { (apart : ℕ → ℕ → ℕ) → AreApart apart table.old.nodes
        → AreLinkedBack (rule_of table.old.params) apart new rows.now table.old.nodes table.new.nodes }
{
    table.known();
    for row in rows {
        link_back(table, candidates, kept, *row, new);
    }
}
