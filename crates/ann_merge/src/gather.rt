// The new points of a merge, copied from its frozen graphs.
ghost use Rattle.std.specs.Prelude.{◌≡◌, ◌<◌, ◌^◌, ◌++◌, [], ◌∷◌, length, map, All, IfOk, OnOk};
ghost use Rattle.std.specs.Arc.{arc_value};
ghost use Rattle.ann_frozen.specs.Frozen.{FrozenView};
ghost use Rattle.ann_table.specs.Node.{node_at};
ghost use Rattle.ann_merge.specs.Gathered.{kept_rows, new_of};

use ann_dead::Dead;
use ann_frozen::Frozen;
use ann_greedy::Graph;
use ann_types::{NewPoint, Vector};
use std::alloc::{AllocError, Global};
use std::sync::Arc;

/// Adds the point in a row of a frozen graph, unless it is deleted.
fn add_row(
    alloc: Global,
    graph: &Frozen,
    row: u32,
    gone: &Dead,
    points: &mut Vec<NewPoint>,
) -> Result<(), AllocError>
    requires row { row < length graph.now.nodes }
    ensures added { OnOk result (points.new.items
        ≡ points.old.items ++ kept_rows gone.now (node_at graph.now.nodes row ∷ [])) }
    ensures tags { OnOk result (All (λ x. x.tag < 2 ^ 64)
        (kept_rows gone.now (node_at graph.now.nodes row ∷ []))) }
{
    let pid = graph.pid(row);
    if gone.contains(pid) {
        return Ok(());
    }
    let vector = Vector::copy(alloc, graph.vector(row))?;
    points.push(NewPoint {
        pid,
        tag: graph.tag(row),
        vector,
    })?;
    Ok(())
}

/// Adds the points of a frozen graph that aren't deleted.
fn add_graph(
    alloc: Global,
    graph: &Frozen,
    gone: &Dead,
    points: &mut Vec<NewPoint>,
) -> Result<(), AllocError>
    ensures added { OnOk result (points.new.items ≡ points.old.items ++ kept_rows gone.now graph.now.nodes) }
    ensures vectors { All (λ x. length x.vector ≡ graph.now.params.d) (kept_rows gone.now graph.now.nodes) }
    ensures tags { OnOk result (All (λ x. x.tag < 2 ^ 64) (kept_rows gone.now graph.now.nodes)) }
{
    graph.known();
    for row in 0..Graph::count(graph) {
        add_row(alloc, graph, row, gone, points)?;
    }
    Ok(())
}

/// The points of frozen graphs that aren't deleted, graph by graph, in order of Pid. The only error is want of memory.
pub(crate) fn new_points(
    alloc: Global,
    graphs: &[Arc<Frozen>],
    gone: &Dead,
    params: &ann_types::Params,
) -> Result<Vec<NewPoint>, AllocError>
    requires { All (λ (f : FrozenView). f.params ≡ params.now) (map arc_value graphs.now) }
    ensures points { IfOk result (λ points. points.items ≡ new_of gone.now (map arc_value graphs.now)) }
    ensures vectors { IfOk result (λ points. All (λ x. length x.vector ≡ params.now.d) points.items) }
    ensures tags { IfOk result (λ points. All (λ x. x.tag < 2 ^ 64) points.items) }
{
    let mut points = Vec::new(alloc);
    for graph in graphs {
        add_graph(alloc, graph, gone, &mut points)?;
    }
    Ok(points)
}
