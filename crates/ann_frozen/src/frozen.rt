ghost use Rattle.std.specs.Prelude.{◌≡◌, ◌<◌, ◌++◌, ◌∷◌, [], length, IfOk, OnOk};
ghost use Rattle.ann_table.specs.Node.{node_at, rows_of, row_pid, graph_of};
ghost use Rattle.ann_table.specs.Table.{AreNodes};
ghost use Rattle.ann_frozen.specs.Frozen.{forgotten, frozen_of, edges_of, AreSameRows};

use crate::packed::Packed;
use ann_greedy::Graph;
use ann_table::Table;
use ann_types::{Params, Pid, Tag};
use std::alloc::{AllocError, Global};
use std::marker::Model;

/// A graph in memory that doesn't change: the rows of the table that it was frozen from, in order of Pid.
///
/// A row takes its d bytes, four bytes for each of its neighbours, and 24 bytes more.
#[derive(Drop)]
pub struct Frozen {
    params: Params,
    rows: Packed,
}

impl Model for Frozen {
    ghost use Rattle.ann_table.specs.Table.{AreNodes};
    ghost use Rattle.ann_frozen.specs.Frozen.{FrozenView};

    ghost Value = { FrozenView };

    ghost view = { λ f. record { params = f.params; nodes = f.rows.nodes } };

    ghost invariant = { λ f. AreNodes f.params f.rows.nodes };
}

/// How many neighbours all rows of a table have together.
fn edges(table: &Table) -> usize
    ensures { result ≡ edges_of table.now.nodes }
{
    table.known();
    let mut edges = 0;
    for row in 0..table.count() {
        edges += table.neighbours(row).len();
    }
    edges
}

/// Adds a row of a table behind all rows.
fn push_row(rows: &mut Packed, table: &Table, row: u32) -> Result<(), AllocError>
    requires row { row < length table.now.nodes }
    requires width { rows.old.width ≡ table.now.params.d }
    ensures width { rows.new.width ≡ rows.old.width }
    ensures nodes { let node = forgotten (node_at table.now.nodes row) in
        OnOk result (rows.new.nodes ≡ rows.old.nodes ++ node ∷ []) }
{
    table.known();
    rows.push(
        table.pid(row),
        table.tag(row),
        table.vector(row),
        table.neighbours(row),
    )
}

/// The rows of a table side by side.
fn pack(alloc: Global, table: &Table) -> Result<Packed, AllocError>
    ensures { IfOk result (λ rows. rows.nodes ≡ frozen_of table.now.nodes) }
{
    let mut rows = Packed::new(alloc, table.params().d, table.count(), edges(table))?;
    for row in 0..table.count() {
        push_row(&mut rows, table, row)?;
    }
    Ok(rows)
}

impl Frozen {
    /// The rows of a table, for good (the freeze of FreshDiskANN, section 5.2). The only error is want of memory.
    pub fn from_table(alloc: Global, table: &Table) -> Result<Frozen, AllocError>
        // Each row has the Pid, the tag, the vector and the neighbours that it has in the table.
        ensures frozen { IfOk result (λ frozen.
            frozen ≡ record { params = table.now.params; nodes = frozen_of table.now.nodes }) }
        // So a walk reads the same rows, and the graph by Pids is the table's.
        ensures rows { IfOk result (λ frozen.
            AreSameRows (rows_of table.now.params table.now.nodes) (rows_of frozen.params frozen.nodes)) }
        ensures graph { IfOk result (λ frozen. graph_of frozen.nodes ≡ graph_of table.now.nodes) }
    {
        table.known();
        let rows = pack(alloc, table)?;
        Ok(Frozen {
            params: *table.params(),
            rows,
        })
    }

    /// The Pid of a row.
    pub fn pid(&self, row: u32) -> Pid
        requires { row < length self.now.nodes }
        ensures { result ≡ row_pid self.now.nodes row }
    {
        self.rows.pid(row)
    }

    /// The tag of a row.
    pub fn tag(&self, row: u32) -> Tag
        requires { row < length self.now.nodes }
        ensures { result ≡ (node_at self.now.nodes row).tag }
    {
        self.rows.tag(row)
    }

    /// The parameters of the index.
    pub fn params(&self) -> &Params
        ensures { result.now ≡ self.now.params }
    {
        &self.params
    }

    /// What is true of every frozen graph, as of every table: Pids rise with the rows and are below `2^32 - 1`, and each
    /// row has d components and other rows in ascending order as its neighbours, at most R. The call does nothing; a
    /// proof learns these facts by it.
    #[inline]
    pub fn known(&self)
        ensures { AreNodes self.now.params self.now.nodes }
    {
        let _ = &self.params;
    }
}

impl Graph for Frozen {
    ghost rows = { λ f. rows_of f.params f.nodes };

    #[inline]
    fn count(&self) -> u32 {
        self.rows.len() as u32
    }

    #[inline]
    fn entry(&self) -> Option<u32> {
        if self.rows.len() == 0 { None } else { Some(0) }
    }

    #[inline]
    fn vector(&self, row: u32) -> &[u8] {
        self.rows.vector(row)
    }

    #[inline]
    fn neighbours(&self, row: u32) -> &[u32] {
        self.rows.neighbours(row)
    }
}
