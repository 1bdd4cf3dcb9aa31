// The live points of a view.
ghost use Rattle.std.specs.Prelude.{◌≡◌, ◌<◌, ◌∷◌, ◌++◌, [], Some, length, map, flat_map, IfErr, OnOk, OnErr};
ghost use Rattle.std.specs.Arc.{arc_value};
ghost use Rattle.std.specs.Option.{option_map};
ghost use Rattle.ann_table.specs.Node.{graph_of, node_at, point_of};
ghost use Rattle.ann_frozen.specs.Frozen.{FrozenView};
ghost use Rattle.ann_view.specs.Collected.{AddsSegment, Begins, HasAdded, HasBegun, HasCollected};
ghost use Rattle.ann_view.specs.Collected.{IsRowRefused, IsUncollected, StopsIn, StopsInSegment};
ghost use Rattle.ann_view.specs.Collected.{alive_in, counts_of, gathering, rows_below};

use crate::collect_refused::CollectRefused;
use crate::near::Named;
use crate::points::PointList;
use crate::view::View;
use ann_block::read_node;
use ann_dead::Dead;
use ann_frozen::Frozen;
use ann_segment::Segment;
use ann_types::{NewPoint, Params, Vector};
use ann_vault::{Eye, Sealed};
use std::alloc::{AllocError, Global};
use std::sync::Arc;

/// Adds the point in a row of a graph in memory, unless it is deleted. The only error is want of memory; the list is then
/// as it was.
fn add_point<G: Named>(
    alloc: Global,
    graph: &G,
    dead: &Dead,
    row: u32,
    out: &mut PointList,
) -> Result<(), AllocError>
    requires { row < length (G.nodes graph.now) }
    ensures added { OnOk result (out.new ≡
        out.old ++ alive_in dead.now (point_of (G.nodes graph.now) (node_at (G.nodes graph.now) row) ∷ [])) }
    ensures kept { OnErr result (out.new ≡ out.old) }
{
    graph.known();
    let pid = graph.pid(row);
    if dead.contains(pid) {
        return Ok(());
    }
    out.push(NewPoint {
        pid,
        tag: graph.tag(row),
        vector: Vector::copy(alloc, graph.vector(row))?,
    })?;
    Ok(())
}

/// Adds the live points of a graph in memory. The only error is want of memory; the first of them are there then.
pub(crate) fn add_graph<G: Named>(
    alloc: Global,
    graph: &G,
    dead: &Dead,
    out: &mut PointList,
) -> Result<(), AllocError>
    ensures added { OnOk result
        (out.new ≡ out.old ++ alive_in dead.now (graph_of (G.nodes graph.now)).points) }
    ensures begun { OnErr result (Begins out.new
        (out.old ++ alive_in dead.now (graph_of (G.nodes graph.now)).points)) }
{
    graph.known();
    for row in 0..graph.count() {
        add_point(alloc, graph, dead, row, out)?;
    }
    Ok(())
}

/// The same of each of some frozen graphs.
pub(crate) fn add_frozen(
    alloc: Global,
    graphs: &[Arc<Frozen>],
    dead: &Dead,
    out: &mut PointList,
) -> Result<(), AllocError>
    ensures added { OnOk result (out.new ≡ out.old ++ alive_in dead.now
        (flat_map (λ (f : FrozenView). (graph_of f.nodes).points) (map arc_value graphs.now))) }
    ensures begun { OnErr result (Begins out.new (out.old ++ alive_in dead.now
        (flat_map (λ (f : FrozenView). (graph_of f.nodes).points) (map arc_value graphs.now)))) }
{
    for graph in graphs {
        let frozen: &Frozen = graph;
        add_graph(alloc, frozen, dead, out)?;
    }
    Ok(())
}

/// Reads the block of a row of a segment, and adds its point, unless it is deleted.
fn add_row<S: Sealed, E: Eye<Seal = S>>(
    alloc: Global,
    segment: &Segment<S>,
    params: &Params,
    dead: &Dead,
    eye: &mut E,
    row: u32,
    out: &mut PointList,
) -> Result<(), CollectRefused>
    requires { row < length segment.now.items }
    ensures added { OnOk result (HasAdded S.tells S.bytes segment.now params.now dead.now (row ∷ [])
        (gathering out.old (E.reads eye.old) (E.faults eye.old))
        (gathering out.new (E.reads eye.new) (E.faults eye.new))) }
    ensures kept { OnErr result (out.new ≡ out.old) }
    ensures refused { IfErr result (IsRowRefused S.tells S.bytes segment.now params.now row
        (counts_of (E.reads eye.old) (E.faults eye.old)) (counts_of (E.reads eye.new) (E.faults eye.new))) }
{
    let block = segment.node_block(row);
    let mut page = [0; 4096];
    eye.read(segment.seal(), 4096 * block, &mut page)?;
    let pid = segment.pid(row);
    let Ok(node) = read_node(&page, pid, row, segment.count(), params) else {
        return Err(CollectRefused::BadSegment { block });
    };
    if dead.contains(pid) {
        return Ok(());
    }
    out.push(NewPoint {
        pid,
        tag: node.tag(),
        vector: Vector::copy(alloc, node.vector())?,
    })?;
    Ok(())
}

/// Reads each row of a segment, and adds the live points.
fn add_rows<S: Sealed, E: Eye<Seal = S>>(
    alloc: Global,
    segment: &Segment<S>,
    params: &Params,
    dead: &Dead,
    eye: &mut E,
    out: &mut PointList,
) -> Result<(), CollectRefused>
    ensures added { OnOk result (HasAdded S.tells S.bytes segment.now params.now dead.now
        (rows_below (length segment.now.items))
        (gathering out.old (E.reads eye.old) (E.faults eye.old))
        (gathering out.new (E.reads eye.new) (E.faults eye.new))) }
    ensures stopped { OnErr result
        (StopsIn S.tells S.bytes segment.now params.now dead.now out.old out.new) }
    ensures refused { IfErr result (IsUncollected S.tells S.bytes (Some segment.now) params.now
        (counts_of (E.reads eye.old) (E.faults eye.old)) (counts_of (E.reads eye.new) (E.faults eye.new))) }
{
    for row in 0..segment.count() {
        add_row(alloc, segment, params, dead, eye, row, out)?;
    }
    Ok(())
}

/// Reads each row of a segment, if there is one, and adds the live points.
fn add_segment<S: Sealed, E: Eye<Seal = S>>(
    alloc: Global,
    segment: &Option<Arc<Segment<S>>>,
    params: &Params,
    dead: &Dead,
    eye: &mut E,
    out: &mut PointList,
) -> Result<(), CollectRefused>
    ensures added { OnOk result (AddsSegment S.tells S.bytes (option_map arc_value segment.now)
        params.now dead.now
        (gathering out.old (E.reads eye.old) (E.faults eye.old))
        (gathering out.new (E.reads eye.new) (E.faults eye.new))) }
    ensures stopped { OnErr result (StopsInSegment S.tells S.bytes (option_map arc_value segment.now)
        params.now dead.now out.old out.new) }
    ensures refused { IfErr result (IsUncollected S.tells S.bytes (option_map arc_value segment.now)
        params.now
        (counts_of (E.reads eye.old) (E.faults eye.old)) (counts_of (E.reads eye.new) (E.faults eye.new))) }
{
    match segment {
        Some(segment) => add_rows(alloc, segment, params, dead, eye, out),
        None => Ok(()),
    }
}

impl<S: Sealed> View<S> {
    /// Collects every live point of the view, once, in order of Pid: the list has these alone. Each row of the long-term
    /// graph is read once.
    ///
    /// # Errors
    ///
    /// `Disk` where a read failed, `BadSegment` with the first block that was read and is outside the format, and
    /// `Memory`. The list then has the first of the live points.
    pub fn collect<E: Eye<Seal = S>>(
        &self,
        eye: &mut E,
        out: &mut PointList,
    ) -> Result<(), CollectRefused>
        ensures collected { OnOk result (HasCollected S.tells S.bytes self.now out.new
            (counts_of (E.reads eye.old) (E.faults eye.old))
            (counts_of (E.reads eye.new) (E.faults eye.new))) }
        ensures begun { OnErr result (HasBegun S.tells S.bytes self.now out.new) }
        ensures refused { IfErr result (IsUncollected S.tells S.bytes self.now.segment self.now.params
            (counts_of (E.reads eye.old) (E.faults eye.old))
            (counts_of (E.reads eye.new) (E.faults eye.new))) }
    {
        self.book.known();
        out.clear();
        let params = self.temp.params();
        let dead = self.temp.dead();
        add_segment(self.temp.alloc(), &self.segment, params, dead, eye, out)?;
        self.temp.collect(out)?;
        Ok(())
    }
}
