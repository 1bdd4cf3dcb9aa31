ghost use Rattle.std.specs.Prelude.{◌≡◌, ◌<◌, ◌∷◌, ◌++◌, ◌&&◌, [], length, All, IsSome, IfOk, OnOk, OnErr, is_none, map, take, MatchOption, ◌+◌, if◌then◌else◌};
ghost use Rattle.std.specs.Arc.{arc_value};
ghost use Rattle.std.specs.List.Sorted.{IsStrictlyIncreasing};
ghost use Rattle.ann_types.specs.Graph.{Point, empty_graph, is_empty, pids_of};
ghost use Rattle.ann_types.specs.Fold.{inserted, deleted, frozen, begun_at, switched, start, all_points};
ghost use Rattle.ann_types.specs.Legal.{has_work};
ghost use Rattle.ann_table.specs.Node.{Node, graph_of};
ghost use Rattle.ann_frozen.specs.Frozen.{FrozenView};
ghost use Rattle.ann_beam.specs.Desk.{result_of};
ghost use Rattle.ann_view.specs.Temp.{IsTemp, IsFrozenWith, with_state};
ghost use Rattle.ann_view.specs.Search.{near_result};
ghost use Rattle.ann_view.specs.Collected.{Begins, alive_in};

use crate::collect::{add_frozen, add_graph};
use crate::frozen_list::FrozenList;
use crate::near::{add_near, add_near_frozen};
use crate::open_merge::OpenMerge;
use crate::points::PointList;
use ann_beam::Desk;
use ann_dead::{Dead, DeadPin};
use ann_frozen::Frozen;
use ann_greedy::Graph;
use ann_insert::{PutScratch, put};
use ann_table::Table;
use ann_types::{Ask, Params, Pid, Tag};
use std::alloc::{AllocError, Global};
use std::marker::Model;
use std::sync::Arc;

/// The part of an index that is in memory: the graph that takes new points (the RW-TempIndex of FreshDiskANN, section
/// 5.2), the frozen graphs, the deleted points and the open merge.
#[derive(Drop)]
pub(crate) struct TempIndex {
    alloc: Global,
    params: Params,
    rw: Table,
    scratch: PutScratch,
    ros: FrozenList,
    dead: Dead,
    begun: Option<OpenMerge>,
}

impl Model for TempIndex {
    ghost use Rattle.ann_view.specs.Temp.{Temp, state_of, AreKept};

    ghost Value = { Temp };

    ghost view = { λ t. record { params = t.params; state = state_of t.rw t.ros t.dead t.begun } };

    ghost invariant = { λ t. AreKept t.params t.rw t.ros t.dead t.begun };
}

/// Freezes a copy of a table that has a point more. The only error is want of memory; the list is then as it was.
fn freeze_with_point(
    ros: &mut FrozenList,
    table: &Table,
    scratch: &mut PutScratch,
    pid: Pid,
    tag: Tag,
    vector: &[u8],
) -> Result<(), AllocError>
    requires above { All (λ (x : Node). x.pid < pid) table.now.nodes }
    requires small { pid < 4294967295 }
    requires vector { length vector.now ≡ table.now.params.d }
    ensures added { OnOk result (IsFrozenWith table.now pid tag vector.now ros.old ros.new) }
    ensures kept { OnErr result (ros.new ≡ ros.old) }
{
    let mut full = table.copy()?;
    put(&mut full, scratch, pid, tag, vector)?;
    ros.freeze(&full)
}

/// Copies the graphs in memory. The only error is want of memory.
fn copy_graphs(rw: &Table, ros: &FrozenList) -> Result<(Table, FrozenList), AllocError>
    ensures rw { IfOk result (λ graphs.
        graphs.0 ≡ record { params = rw.now.params; nodes = rw.now.nodes; spare = 0 }) }
    ensures ros { IfOk result (λ graphs. graphs.1 ≡ ros.now) }
{
    let ros = ros.copy()?;
    Ok((rw.copy()?, ros))
}

/// Copies the deleted points and the open merge. The only error is want of memory.
fn copy_deletes(
    dead: &Dead,
    begun: &Option<OpenMerge>,
) -> Result<(Dead, Option<OpenMerge>), AllocError>
    ensures dead { IfOk result (λ deletes. deletes.0 ≡ dead.now) }
    ensures begun { IfOk result (λ deletes. deletes.1 ≡ begun.now) }
{
    let dead = dead.copy()?;
    match begun {
        Some(begun) => Ok((dead, Some(begun.copy()?))),
        None => Ok((dead, None)),
    }
}

impl TempIndex {
    /// Nothing in memory. The only error is want of memory.
    pub(crate) fn new(alloc: Global, params: &Params) -> Result<TempIndex, AllocError>
        ensures { IfOk result (λ temp. temp ≡ record { params = params.now; state = start empty_graph }) }
    {
        Ok(TempIndex {
            alloc,
            params: *params,
            rw: Table::new(alloc, params),
            scratch: PutScratch::new(alloc)?,
            ros: FrozenList::new(alloc),
            dead: Dead::new(alloc),
            begun: None,
        })
    }

    /// What is true of every such part. It does nothing.
    pub(crate) fn known(&self)
        ensures { IsTemp self.now }
    {
        let _ = &self.params;
    }

    /// The parameters of the index.
    pub(crate) fn params(&self) -> &Params
        ensures { result.now ≡ self.now.params }
    {
        &self.params
    }

    /// Puts a point into the graph that takes new points, and freezes the graph where that is full.
    ///
    /// The only error is want of memory; nothing has changed then.
    pub(crate) fn insert(&mut self, pid: Pid, tag: Tag, vector: &[u8]) -> Result<(), AllocError>
        requires above { All (λ (x : Point). x.pid < pid) self.old.state.rw.points }
        requires small { pid < 4294967295 }
        requires vector { length vector.now ≡ self.old.params.d }
        ensures inserted { OnOk result (self.new ≡ with_state self.old
            (inserted self.old.params self.old.state pid tag vector.now)) }
        ensures refused { OnErr result (self.new ≡ self.old) }
    {
        if Graph::count(&self.rw) + 1 < self.params.freeze_at {
            put(&mut self.rw, &mut self.scratch, pid, tag, vector)?;
        } else {
            self.insert_last(pid, tag, vector)?;
        }
        Ok(())
    }

    /// Puts the point that fills the graph, in a copy of it, and freezes that.
    fn insert_last(&mut self, pid: Pid, tag: Tag, vector: &[u8]) -> Result<(), AllocError>
        requires above { All (λ (x : Point). x.pid < pid) self.old.state.rw.points }
        requires small { pid < 4294967295 }
        requires vector { length vector.now ≡ self.old.params.d }
        requires last { length self.old.state.rw.points + 1 ≡ self.old.params.freeze_at }
        ensures inserted { OnOk result (self.new ≡ with_state self.old
            (inserted self.old.params self.old.state pid tag vector.now)) }
        ensures refused { OnErr result (self.new ≡ self.old) }
    {
        freeze_with_point(&mut self.ros, &self.rw, &mut self.scratch, pid, tag, vector)?;
        self.rw = Table::new(self.alloc, &self.params);
        Ok(())
    }

    /// Deletes a point. The only error is want of memory; nothing has changed then.
    pub(crate) fn delete(&mut self, pid: Pid) -> Result<(), AllocError>
        ensures deleted { OnOk result (self.new ≡ with_state self.old (deleted self.old.state (pid ∷ []))) }
        ensures refused { OnErr result (self.new ≡ self.old) }
    {
        self.dead.add(pid)?;
        Ok(())
    }

    /// Deletes a point and puts another. The only error is want of memory; nothing has changed then.
    pub(crate) fn replace(
        &mut self,
        gone: Pid,
        pid: Pid,
        tag: Tag,
        vector: &[u8],
    ) -> Result<(), AllocError>
        requires above { All (λ (x : Point). x.pid < pid) self.old.state.rw.points }
        requires small { pid < 4294967295 }
        requires vector { length vector.now ≡ self.old.params.d }
        ensures replaced { OnOk result (self.new ≡ with_state self.old
            (inserted self.old.params (deleted self.old.state (gone ∷ [])) pid tag vector.now)) }
        ensures refused { OnErr result (self.new ≡ self.old) }
    {
        let mut dead = self.dead.copy()?;
        dead.add(gone)?;
        self.insert(pid, tag, vector)?;
        self.dead = dead;
        Ok(())
    }

    /// Begins a merge: the graph that takes new points freezes, and the frozen graphs and the deleted points of this
    /// moment are the merge's (StreamingMerge of FreshDiskANN, section 5.3).
    ///
    /// The only error is want of memory; nothing has changed then.
    pub(crate) fn begin(&mut self, position: u64) -> Result<(), AllocError>
        ensures begun { OnOk result (self.new ≡ with_state self.old (begun_at self.old.state position)) }
        ensures refused { OnErr result (self.new ≡ self.old) }
    {
        let gone = self.dead.copy()?;
        self.freeze()?;
        self.begun = Some(OpenMerge::new(position, self.ros.len(), gone));
        Ok(())
    }

    /// Freezes the graph that takes new points, unless it is empty.
    fn freeze(&mut self) -> Result<(), AllocError>
        ensures frozen { OnOk result (self.new ≡ with_state self.old
            (if is_empty self.old.state.rw then self.old.state
            else frozen self.old.state self.old.state.rw)) }
        ensures refused { OnErr result (self.new ≡ self.old) }
    {
        if Graph::count(&self.rw) == 0 {
            return Ok(());
        }
        self.ros.freeze(&self.rw)?;
        self.rw = Table::new(self.alloc, &self.params);
        Ok(())
    }

    /// Ends the open merge: the graphs and the deleted points that it took leave. Deletes since its begin stay.
    ///
    /// The only error is want of memory; nothing has changed then.
    pub(crate) fn end(&mut self) -> Result<(), AllocError>
        ensures ended { OnOk result (self.new ≡ with_state self.old
            (switched self.old.state empty_graph self.old.state.begun)) }
        ensures refused { OnErr result (self.new ≡ self.old) }
    {
        let Some(begun) = &self.begun else {
            return Ok(());
        };
        self.dead.remove_all(begun.gone())?;
        self.ros.remove_first(begun.frozen());
        self.begun = None;
        Ok(())
    }

    /// Whether no merge is open and there is something to merge.
    pub(crate) fn can_begin(&self) -> bool
        ensures { result ≡ (is_none self.now.state.begun && has_work self.now.state) }
    {
        let is_idle = Graph::count(&self.rw) == 0 && self.ros.len() == 0 && self.dead.is_empty();
        self.begun.is_none() && !is_idle
    }

    /// The frozen graphs that the open merge takes, shared. The only error is want of memory.
    pub(crate) fn frozen_of_begin(&self) -> Result<Vec<Arc<Frozen>>, AllocError>
        requires { IsSome self.now.state.begun }
        ensures graphs { IfOk result (λ graphs. MatchOption self.now.state.begun ⊥
            (λ b. map (λ (f : FrozenView). graph_of f.nodes) (map arc_value graphs.items)
            ≡ take b.frozen self.now.state.ros)) }
        ensures params { IfOk result (λ graphs.
            All (λ (f : FrozenView). f.params ≡ self.now.params) (map arc_value graphs.items)) }
    {
        match &self.begun {
            Some(begun) => self.ros.first(begun.frozen()),
            None => unreachable!(),
        }
    }

    /// The deleted points that the open merge takes. The only error is want of memory.
    pub(crate) fn dead_of_begin(&self) -> Result<Dead, AllocError>
        requires { IsSome self.now.state.begun }
        ensures { IfOk result (λ dead. MatchOption self.now.state.begun ⊥ (λ b. dead ≡ b.gone)) }
    {
        match &self.begun {
            Some(begun) => begun.gone().copy(),
            None => unreachable!(),
        }
    }

    /// The deleted points, shared as they stand. The only error is want of memory.
    pub(crate) fn pin(&self) -> Result<DeadPin, AllocError>
        ensures { IfOk result (λ pin. pin ≡ self.now.state.dead) }
    {
        self.dead.pin()
    }

    /// The same once more. The only error is want of memory.
    pub(crate) fn copy(&self) -> Result<TempIndex, AllocError>
        ensures { IfOk result (λ copy. copy ≡ self.now) }
    {
        let scratch = PutScratch::new(self.alloc)?;
        let (rw, ros) = copy_graphs(&self.rw, &self.ros)?;
        let (dead, begun) = copy_deletes(&self.dead, &self.begun)?;
        Ok(TempIndex {
            alloc: self.alloc,
            params: self.params,
            rw,
            scratch,
            ros,
            dead,
            begun,
        })
    }

    /// Leaves in the desk's result, which is empty and has the ask's limit, the nearest live points of the graphs in
    /// memory. Takes no memory.
    pub(crate) fn near(&self, desk: &mut Desk, ask: &Ask)
        requires width { length ask.now.vector ≡ self.now.params.d }
        requires ages { IsStrictlyIncreasing (pids_of (all_points self.now.state)) }
        requires empty { result_of desk.old ≡ record { limit = ask.now.k; points = [] } }
        ensures { result_of desk.new ≡ near_result self.now.state ask.now }
    {
        add_near(&self.rw, &self.dead, desk, ask);
        add_near_frozen(self.ros.graphs(), &self.dead, desk, ask);
    }

    /// Adds the live points of the graphs in memory, in order of Pid. The only error is want of memory; the first of them
    /// are there then.
    pub(crate) fn collect(&self, out: &mut PointList) -> Result<(), AllocError>
        ensures added { OnOk result
            (out.new ≡ out.old ++ alive_in self.now.state.dead (all_points self.now.state)) }
        ensures begun { OnErr result
            (Begins out.new (out.old ++ alive_in self.now.state.dead (all_points self.now.state))) }
    {
        add_frozen(self.alloc, self.ros.graphs(), &self.dead, out)?;
        add_graph(self.alloc, &self.rw, &self.dead, out)?;
        Ok(())
    }

    /// Where memory comes from.
    pub(crate) fn alloc(&self) -> Global {
        self.alloc
    }

    /// The deleted points.
    pub(crate) fn dead(&self) -> &Dead
        ensures { result.now ≡ self.now.state.dead }
    {
        &self.dead
    }
}
