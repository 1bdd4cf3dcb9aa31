// The search of the graphs in memory.
ghost use Rattle.std.specs.Prelude.{◌≡◌, ◌<◌, ◌∷◌, [], ℕ, List, All, length, map};
ghost use Rattle.std.specs.Arc.{arc_value};
ghost use Rattle.std.specs.List.{AllByRecursion, flat_map};
ghost use Rattle.ann_types.specs.declared.params.Params.{Params};
ghost use Rattle.ann_greedy.specs.Shows.{AreRows};
ghost use Rattle.ann_table.specs.Node.{Node, node_at, row_pid, rows_of, graph_of};
ghost use Rattle.ann_table.specs.Table.{AreNodes};
ghost use Rattle.ann_frozen.specs.Frozen.{FrozenView};
ghost use Rattle.ann_beam.specs.Desk.{result_of};
ghost use Rattle.ann_beam.specs.Ranking.{with_all};
ghost use Rattle.ann_beam.specs.Visits.{alive};
ghost use Rattle.ann_view.specs.Near.{row_point, near_points, AreInside};

use ann_beam::Desk;
use ann_dead::Dead;
use ann_frozen::Frozen;
use ann_greedy::{Graph, walk};
use ann_pool::Item;
use ann_table::Table;
use ann_types::{Ask, Pid, Tag};
use std::sync::Arc;

/// A graph in memory whose rows have Pids and tags.
pub(crate) trait Named: Graph {
    ghost params: { Self → Params };

    ghost nodes: { Self → List Node };

    fn pid(&self, row: u32) -> Pid
        requires { row < length (nodes self.now) }
        ensures { result ≡ row_pid (nodes self.now) row };

    fn tag(&self, row: u32) -> Tag
        requires { row < length (nodes self.now) }
        ensures { result ≡ (node_at (nodes self.now) row).tag };

    /// What is true of its rows. It does nothing.
    fn known(&self)
        ensures nodes { AreNodes (params self.now) (nodes self.now) }
        ensures rows { Self.Graph.rows self.now ≡ rows_of (params self.now) (nodes self.now) };
}

impl Named for Table {
    ghost params = { λ t. t.params };

    ghost nodes = { λ t. t.nodes };

    fn pid(&self, row: u32) -> Pid {
        Table::pid(self, row)
    }

    fn tag(&self, row: u32) -> Tag {
        Table::tag(self, row)
    }

    fn known(&self) {
        Table::known(self);
    }
}

impl Named for Frozen {
    ghost params = { λ f. f.params };

    ghost nodes = { λ f. f.nodes };

    fn pid(&self, row: u32) -> Pid {
        Frozen::pid(self, row)
    }

    fn tag(&self, row: u32) -> Tag {
        Frozen::tag(self, row)
    }

    fn known(&self) {
        Frozen::known(self);
    }
}

/// Adds a point of a walk to the desk's result, unless it is deleted.
fn add_item<G: Named>(graph: &G, dead: &Dead, desk: &mut Desk, item: Item)
    requires { item.number < length (G.nodes graph.now) }
    ensures limit { (result_of desk.new).limit ≡ (result_of desk.old).limit }
    ensures points { (result_of desk.new).points ≡ with_all (result_of desk.old).limit
        (alive dead.now (row_point (G.nodes graph.now) item ∷ [])) (result_of desk.old).points }
    ensures pool { desk.new.pool ≡ desk.old.pool }
{
    // A point that is too far away needs no look at its Pid.
    if desk.is_beyond(item.distance) {
        return;
    }
    let pid = graph.pid(item.number);
    if !dead.contains(pid) {
        desk.add(pid, graph.tag(item.number), item.distance);
    }
}

/// Adds the points of a walk to the desk's result, without those that are deleted.
fn add_items<G: Named>(graph: &G, dead: &Dead, desk: &mut Desk)
    requires { AreRows (length (G.nodes graph.now)) desk.old.pool.items }
    ensures limit { (result_of desk.new).limit ≡ (result_of desk.old).limit }
    ensures points { (result_of desk.new).points ≡ with_all (result_of desk.old).limit
        (alive dead.now (map (row_point (G.nodes graph.now)) desk.old.pool.items))
        (result_of desk.old).points }
{
    for place in 0..desk.pool.items().len() {
        let item = desk.pool.items()[place];
        add_item(graph, dead, desk, item);
    }
}

/// Walks a graph, and adds the points near the query to the desk's result. Deleted points take their places among those
/// near, and are left out afterwards (FreshDiskANN, section 4.2).
pub(crate) fn add_near<G: Named>(graph: &G, dead: &Dead, desk: &mut Desk, ask: &Ask)
    requires { length ask.now.vector ≡ (G.params graph.now).d }
    ensures limit { (result_of desk.new).limit ≡ (result_of desk.old).limit }
    ensures points { (result_of desk.new).points ≡ with_all (result_of desk.old).limit
        (near_points dead.now (graph_of (G.nodes graph.now)) ask.now.vector ask.now.l)
        (result_of desk.old).points }
    ensures inside { AreInside ask.now.vector ask.now.l (graph_of (G.nodes graph.now)) }
{
    graph.known();
    desk.pool.clear(ask.l);
    walk(graph, ask.vector.bytes(), &mut desk.pool);
    add_items(graph, dead, desk);
}

/// The same of each of some frozen graphs.
pub(crate) fn add_near_frozen(graphs: &[Arc<Frozen>], dead: &Dead, desk: &mut Desk, ask: &Ask)
    requires { AllByRecursion (λ (f : FrozenView). length ask.now.vector ≡ f.params.d)
        (map arc_value graphs.now) }
    ensures limit { (result_of desk.new).limit ≡ (result_of desk.old).limit }
    ensures points { (result_of desk.new).points ≡ with_all (result_of desk.old).limit
        (flat_map (λ (f : FrozenView). near_points dead.now (graph_of f.nodes) ask.now.vector ask.now.l)
        (map arc_value graphs.now))
        (result_of desk.old).points }
    ensures inside { AllByRecursion
        (λ (f : FrozenView). AreInside ask.now.vector ask.now.l (graph_of f.nodes))
        (map arc_value graphs.now) }
{
    for graph in graphs {
        let frozen: &Frozen = graph;
        add_near(frozen, dead, desk, ask);
    }
}
