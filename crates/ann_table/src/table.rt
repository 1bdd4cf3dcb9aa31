ghost use Rattle.std.specs.Prelude.{◌≡◌, ◌≢◌, ◌≤◌, ◌<◌, ◌+◌, ◌++◌, ◌∷◌, [], length, All, IfOk, OnOk};
ghost use Rattle.ann_types.specs.Kept.{rule_of};
ghost use Rattle.ann_types.specs.Legal.{pid_end};
ghost use Rattle.ann_prune.specs.Newer.{AreSettled};
ghost use Rattle.ann_table.specs.Node.{new_node, node_at, rows_of, apart_rows, row_pid, linked};
ghost use Rattle.ann_types.specs.Rows.{AreNeighbours};
ghost use Rattle.ann_table.specs.Table.{ComesLast, AreNodes};

use crate::label::Label;
use crate::links::Links;
use crate::room::push_within;
use crate::vectors::Vectors;
use ann_greedy::Graph;
use ann_lanes::squared;
use ann_prune::Metric;
use ann_types::{Params, Pid, Tag};
use std::alloc::{AllocError, Global};
use std::marker::Model;

/// The graph in memory: rows in order of Pid, each with a tag, a vector and neighbours.
///
/// A row takes its d bytes, four bytes for each of the R places of its neighbours, and 17 bytes more. A row knows
/// besides what its last prune left: of its neighbours below `newer` none leaves out a later one, so the next prune need
/// not compare those with each other.
#[derive(Drop)]
pub struct Table {
    params: Params,
    spare: u32,
    labels: Vec<Label>,
    vectors: Vectors,
    links: Links,
}

impl Model for Table {
    ghost use Rattle.ann_table.specs.Table.{TableView, nodes_of, AreStored, AreNodes};

    ghost Value = { TableView };

    ghost view = { λ t. record { params = t.params; nodes = nodes_of t.labels.items t.vectors.lists t.links.lists; spare = t.spare } };

    ghost use Rattle.std.specs.Prelude.{vec_len, vec_capacity};

    ghost invariant = { λ t. AreStored t.params t.spare (vec_len t.labels) (vec_capacity t.labels) t.vectors t.links × AreNodes t.params (nodes_of t.labels.items t.vectors.lists t.links.lists) };
}

impl Table {
    /// A table without rows.
    pub fn new(alloc: Global, params: &Params) -> Table
        ensures { result ≡ record { params = params.now; nodes = []; spare = 0 } }
    {
        Table {
            params: *params,
            spare: 0,
            labels: Vec::new(alloc),
            vectors: Vectors::new(alloc, params.d),
            links: Links::new(alloc, params.r),
        }
    }

    /// Makes room for so many more rows. The only error is want of memory.
    pub fn reserve(&mut self, more: u32) -> Result<(), AllocError>
        ensures params { self.new.params ≡ self.old.params }
        ensures nodes { self.new.nodes ≡ self.old.nodes }
        ensures room { OnOk result (more ≤ self.new.spare) }
        ensures least { self.old.spare ≤ self.new.spare }
    {
        self.labels.reserve(more as usize)?;
        self.vectors.reserve(more)?;
        self.links.reserve(more)?;
        self.spare = self.spare.max(more);
        Ok(())
    }

    /// Adds a row behind all others, with a Pid above theirs and neighbours among them. Takes no memory.
    pub fn add(&mut self, pid: Pid, tag: Tag, vector: &[u8], neighbours: &[u32])
        requires room { 1 ≤ self.old.spare }
        requires pid { All (λ node. node.pid < pid) self.old.nodes }
        requires small { pid < pid_end }
        requires vector { length vector.now ≡ self.old.params.d }
        requires neighbours { let count = length self.old.nodes in
            AreNeighbours self.old.params count count neighbours.now }
        ensures params { self.new.params ≡ self.old.params }
        ensures nodes { self.new.nodes ≡ self.old.nodes ++ new_node pid tag vector.now neighbours.now ∷ [] }
        ensures spare { self.new.spare + 1 ≡ self.old.spare }
    {
        self.spare -= 1;
        push_within(&mut self.labels, Label { tag, pid, newer: 0 });
        self.vectors.push(vector);
        self.links.push(neighbours);
    }

    /// Replaces the neighbours of one row, of which nothing is known. Takes no memory.
    pub fn set_neighbours(&mut self, row: u32, neighbours: &[u32])
        requires row { row < length self.old.nodes }
        requires neighbours { AreNeighbours self.old.params (length self.old.nodes) row neighbours.now }
        ensures params { self.new.params ≡ self.old.params }
        ensures nodes { self.new.nodes ≡ linked self.old.nodes row neighbours.now 0 }
        ensures spare { self.new.spare ≡ self.old.spare }
    {
        self.links.set(row, neighbours);
        self.labels[row as usize].newer = 0;
    }

    /// Replaces the neighbours of one row by what a prune kept, of which none leaves out a later one. Takes no memory.
    pub fn set_kept(&mut self, row: u32, neighbours: &[u32])
        requires row { row < length self.old.nodes }
        requires neighbours { AreNeighbours self.old.params (length self.old.nodes) row neighbours.now }
        requires settled { let rule = rule_of self.old.params in
            AreSettled rule (apart_rows self.old.nodes) row (length self.old.nodes) neighbours.now }
        ensures params { self.new.params ≡ self.old.params }
        ensures nodes { self.new.nodes ≡ linked self.old.nodes row neighbours.now (length self.old.nodes) }
        ensures spare { self.new.spare ≡ self.old.spare }
    {
        let count = self.labels.len() as u32;
        self.links.set(row, neighbours);
        self.labels[row as usize].newer = count;
    }

    /// Adds a neighbour above all neighbours of a row, and not below its `newer`. Takes no memory.
    pub fn link(&mut self, row: u32, neighbour: u32)
        requires row { row < length self.old.nodes }
        requires inside { neighbour < length self.old.nodes }
        requires other { neighbour ≢ row }
        requires last { ComesLast neighbour (node_at self.old.nodes row) }
        requires few { length (node_at self.old.nodes row).links < self.old.params.r }
        ensures params { self.new.params ≡ self.old.params }
        ensures nodes { let node = node_at self.old.nodes row in
            self.new.nodes ≡ linked self.old.nodes row (node.links ++ neighbour ∷ []) node.newer }
        ensures spare { self.new.spare ≡ self.old.spare }
    {
        self.links.append(row, neighbour);
    }

    /// The Pid of a row.
    pub fn pid(&self, row: u32) -> Pid
        requires { row < length self.now.nodes }
        ensures { result ≡ row_pid self.now.nodes row }
    {
        self.labels[row as usize].pid
    }

    /// The tag of a row.
    pub fn tag(&self, row: u32) -> Tag
        requires { row < length self.now.nodes }
        ensures { result ≡ (node_at self.now.nodes row).tag }
    {
        self.labels[row as usize].tag
    }

    /// A row below which none of this row's neighbours leaves out a later one.
    pub fn newer(&self, row: u32) -> u32
        requires { row < length self.now.nodes }
        ensures { result ≡ (node_at self.now.nodes row).newer }
    {
        self.labels[row as usize].newer
    }

    /// The parameters of the index.
    pub fn params(&self) -> &Params
        ensures { result.now ≡ self.now.params }
    {
        &self.params
    }

    /// A table of its own that is equal to this one, without room for more rows. The only error is want of memory.
    pub fn copy(&self) -> Result<Table, AllocError>
        ensures { IfOk result (λ copy. copy ≡ record self.now { spare = 0 }) }
    {
        Ok(Table {
            params: self.params,
            spare: 0,
            labels: self.labels.to_vec(*self.labels.allocator())?,
            vectors: self.vectors.copy()?,
            links: self.links.copy()?,
        })
    }

    /// What is true of every table: Pids rise with the rows and are below `2^32 - 1`, each row has d components and
    /// other rows in ascending order as its neighbours, at most R, and of those below `newer` none leaves out a later
    /// one. The call does nothing; a proof learns these facts by it.
    #[inline]
    pub fn known(&self)
        ensures { AreNodes self.now.params self.now.nodes }
    {
        let _ = &self.params;
    }
}

impl Graph for Table {
    ghost rows = { λ t. rows_of t.params t.nodes };

    #[inline]
    fn count(&self) -> u32 {
        self.labels.len() as u32
    }

    #[inline]
    fn entry(&self) -> Option<u32> {
        if self.labels.is_empty() {
            None
        } else {
            Some(0)
        }
    }

    #[inline]
    fn vector(&self, row: u32) -> &[u8] {
        self.vectors.get(row)
    }

    #[inline]
    fn neighbours(&self, row: u32) -> &[u32] {
        self.links.get(row)
    }
}

impl Metric for Table {
    ghost use Rattle.ann_types.proofs.Distances.{distance_itself, distance_symmetric};

    ghost apart = { λ t. apart_rows t.nodes };

    ghost size = { λ t. length t.nodes };

    #[inline]
    fn count(&self) -> u32 {
        self.labels.len() as u32
    }

    #[inline]
    fn distance(&self, x: u32, y: u32) -> u32 {
        squared(self.vector(x), self.vector(y))
    }

    ghost near_itself = { λ t x. distance_itself (node_at t.nodes x).vector };

    ghost symmetric = { λ t x y. distance_symmetric (node_at t.nodes x).vector (node_at t.nodes y).vector };
}
