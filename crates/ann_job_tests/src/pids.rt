//! Whether Pids ascend through a segment and frozen graphs, as a job wants it.

ghost use Rattle.std.specs.Prelude.{◌≡◌, ◌<◌, ◌++◌, All, length, map, IfOk, OnOk};
ghost use Rattle.std.specs.Bool.{OnTrue};
ghost use Rattle.std.specs.Arc.{arc_value};
ghost use Rattle.std.specs.Option.{option_map};
ghost use Rattle.std.specs.List.Sorted.{IsStrictlyIncreasing};
ghost use Rattle.ann_table.specs.Node.{row_pids};
ghost use Rattle.ann_segment.specs.Directory.{Item};
ghost use Rattle.ann_types.specs.Legal.{pid_end};
ghost use Rattle.ann_mlaws.specs.Rows.{old_items};
ghost use Rattle.ann_merge.specs.Gathered.{all_pids};

use ann_frozen::Frozen;
use ann_greedy::Graph;
use ann_segment::Segment;
use ann_types::Pid;
use ann_vault::MemorySeal;
use std::alloc::{AllocError, Global};
use std::sync::Arc;

type Old = Option<Arc<Segment<MemorySeal>>>;

// Adds the Pids of a segment.
fn add_segment(segment: &Segment<MemorySeal>, pids: &mut Vec<Pid>) -> Result<(), AllocError>
    ensures { OnOk result
        (pids.new.items ≡ pids.old.items ++ map (λ (item : Item). item.0) segment.now.items) }
{
    for row in 0..segment.count() {
        pids.push(segment.pid(row))?;
    }
    Ok(())
}

// Adds the Pids of a graph.
fn add_graph(graph: &Frozen, pids: &mut Vec<Pid>) -> Result<(), AllocError>
    ensures { OnOk result (pids.new.items ≡ pids.old.items ++ row_pids graph.now.nodes) }
{
    for row in 0..Graph::count(graph) {
        pids.push(graph.pid(row))?;
    }
    Ok(())
}

// The Pids of a segment.
fn old_pids(alloc: Global, old: &Old) -> Result<Vec<Pid>, AllocError>
    ensures { IfOk result (λ pids. pids.items ≡
        map (λ (item : Item). item.0) (old_items (option_map arc_value old.now))) }
{
    let mut pids = Vec::new(alloc);
    if let Some(segment) = old {
        add_segment(segment, &mut pids)?;
    }
    Ok(pids)
}

// All Pids, in order.
fn pids_in(alloc: Global, old: &Old, frozen: &[Arc<Frozen>]) -> Result<Vec<Pid>, AllocError>
    ensures { IfOk result (λ pids. pids.items ≡
        all_pids (old_items (option_map arc_value old.now)) (map arc_value frozen.now)) }
{
    let mut pids = old_pids(alloc, old)?;
    for graph in frozen {
        add_graph(graph, &mut pids)?;
    }
    Ok(pids)
}

// Whether each number is below the next.
fn rises(list: &[Pid]) -> bool
    ensures { OnTrue result (IsStrictlyIncreasing list.now) }
{
    for i in 1..list.len() {
        if list[i - 1] >= list[i] {
            return false;
        }
    }
    true
}

// Whether each number may be a Pid.
fn are_small(list: &[Pid]) -> bool
    ensures { OnTrue result (All (λ pid. pid < pid_end) list.now) }
{
    list.iter().all(|pid| *pid < u32::MAX)
}

/// Whether the Pids ascend through a segment and frozen graphs.
pub(crate) fn ascend(alloc: Global, old: &Old, frozen: &[Arc<Frozen>]) -> Result<bool, AllocError>
    ensures rising { IfOk result (λ ascend. OnTrue ascend (IsStrictlyIncreasing
        (all_pids (old_items (option_map arc_value old.now)) (map arc_value frozen.now)))) }
    ensures small { IfOk result (λ ascend. OnTrue ascend (All (λ pid. pid < pid_end)
        (all_pids (old_items (option_map arc_value old.now)) (map arc_value frozen.now)))) }
{
    let pids = pids_in(alloc, old, frozen)?;
    Ok(rises(&pids) && are_small(&pids))
}
