ghost use Rattle.std.specs.Prelude.{◌≡◌, ◌≤◌, ◌++◌, ◌∷◌, [], length, map, take, drop, IfOk, OnOk, OnErr};
ghost use Rattle.std.specs.Arc.{arc_value};
ghost use Rattle.ann_frozen.specs.Frozen.{frozen_of};

use ann_frozen::Frozen;
use ann_table::Table;
use std::alloc::{AllocError, Global};
use std::marker::Model;
use std::sync::Arc;

/// Frozen graphs in order of age (the RO-TempIndexes of FreshDiskANN), each shared by all who hold it.
#[derive(Drop)]
pub(crate) struct FrozenList {
    graphs: Vec<Arc<Frozen>>,
}

impl Model for FrozenList {
    ghost use Rattle.std.specs.Prelude.{List, map};
    ghost use Rattle.std.specs.Arc.{arc_value};
    ghost use Rattle.ann_frozen.specs.Frozen.{FrozenView};

    ghost Value = { List FrozenView };

    ghost view = { λ l. map arc_value l.graphs.items };
}

/// The first so many graphs once more. The only error is want of memory.
fn shared(
    alloc: Global,
    graphs: &[Arc<Frozen>],
    count: usize,
) -> Result<Vec<Arc<Frozen>>, AllocError>
    requires { count ≤ length graphs.now }
    ensures { IfOk result (λ first. map arc_value first.items ≡ take count (map arc_value graphs.now)) }
{
    let mut first = Vec::with_capacity(alloc, count)?;
    for graph in &graphs[..count] {
        first.push(graph.clone()?)?;
    }
    Ok(first)
}

impl FrozenList {
    pub(crate) fn new(alloc: Global) -> FrozenList
        ensures { result ≡ [] }
    {
        FrozenList {
            graphs: Vec::new(alloc),
        }
    }

    pub(crate) fn len(&self) -> usize
        ensures { result ≡ length self.now }
    {
        self.graphs.len()
    }

    /// The graphs, the oldest first.
    pub(crate) fn graphs(&self) -> &[Arc<Frozen>]
        ensures { map arc_value result.now ≡ self.now }
    {
        &self.graphs
    }

    /// Freezes a table, and adds it as the youngest. The only error is want of memory; the list is then as it was.
    pub(crate) fn freeze(&mut self, table: &Table) -> Result<(), AllocError>
        ensures added { OnOk result (self.new ≡ self.old
            ++ (record { params = table.now.params; nodes = frozen_of table.now.nodes }) ∷ []) }
        ensures kept { OnErr result (self.new ≡ self.old) }
    {
        let alloc = *self.graphs.allocator();
        let graph = Frozen::from_table(alloc, table)?;
        let graph = Arc::new(alloc, graph)?;
        self.graphs.push(graph)?;
        Ok(())
    }

    /// Takes the oldest graphs away.
    pub(crate) fn remove_first(&mut self, count: usize)
        requires { count ≤ length self.old }
        ensures { self.new ≡ drop count self.old }
    {
        for removed in 0..count {
            let _ = self.graphs.remove(0);
        }
    }

    /// The oldest graphs, shared. The only error is want of memory.
    pub(crate) fn first(&self, count: usize) -> Result<Vec<Arc<Frozen>>, AllocError>
        requires { count ≤ length self.now }
        ensures { IfOk result (λ first. map arc_value first.items ≡ take count self.now) }
    {
        shared(*self.graphs.allocator(), &self.graphs, count)
    }

    /// The same list once more. The only error is want of memory.
    pub(crate) fn copy(&self) -> Result<FrozenList, AllocError>
        ensures { IfOk result (λ copy. copy ≡ self.now) }
    {
        Ok(FrozenList {
            graphs: shared(*self.graphs.allocator(), &self.graphs, self.graphs.len())?,
        })
    }
}
