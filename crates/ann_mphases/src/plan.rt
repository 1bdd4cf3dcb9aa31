ghost use Rattle.std.specs.Prelude.{◌≡◌, ◌≤◌, ◌<◌, ℕ, List, Option, All, [], length, MatchOption, IfOk, IfErr};
ghost use Rattle.std.specs.Arc.{arc_value};
ghost use Rattle.std.specs.Option.{option_map};
ghost use Rattle.ann_mcause.specs.Eyes.{AreCause, HaveGone};
ghost use Rattle.ann_mdelete.specs.declared.refused.WorkRefused.TheVariants.{Memory};
ghost use Rattle.ann_minsert.specs.Mean.{IsCentral};
ghost use Rattle.ann_mlaws.specs.Rows.{IsPlanned, MayMerge};
ghost use Rattle.ann_mpatch.specs.Source.{source_of};
ghost use Rattle.ann_mphases.specs.Grown.{MayGrow};
ghost use Rattle.ann_mphases.specs.Index.{index_of};
ghost use Rattle.ann_mphases.specs.Left.{IsLeft};
ghost use Rattle.ann_mphases.specs.Planned.{PlansMerge};

use crate::grown::{Grown, grow};
use crate::left::{Left, delete_old};
use ann_crew::{Gate, Spot};
use ann_dead::Dead;
use ann_mdelete::{Decoded, WorkRefused};
use ann_minsert::mean_entry;
use ann_mlaws::planning;
use ann_mpatch::PatchPlan;
use ann_pq::Codebook;
use ann_segment::Segment;
use ann_types::{NewPoint, Params};
use ann_vault::{Eye, Sealed};
use std::alloc::{AllocError, Global};
use std::sync::Arc;
use std::thread::Threads;

/// What the phases before the last one make of a merge.
#[derive(Drop)]
pub struct Planned<S: Sealed> {
    /// What the Patch phase makes the merged graph of.
    pub plan: PatchPlan<S>,
    /// The row of the entry among the merged rows; none exactly where there are no rows.
    pub entry: Option<u32>,
}

/// The same segment once more, shared. The only error is want of memory.
fn share<S: Sealed>(
    segment: &Option<Arc<Segment<S>>>,
) -> Result<Option<Arc<Segment<S>>>, AllocError>
    ensures { IfOk result (λ shared. option_map arc_value shared ≡ option_map arc_value segment.now) }
{
    match segment {
        Some(segment) => Ok(Some(segment.clone()?)),
        None => Ok(None),
    }
}

/// The row that is nearest to the mean of all: the entry of the merged graph. The only error is want of memory.
fn enter(alloc: Global, decoded: &Decoded, d: u16) -> Result<Option<u32>, AllocError>
    requires { All (λ vector. length vector ≡ d) decoded.now }
    ensures central { IfOk result (IsCentral d decoded.now) }
    ensures inside { IfOk result (λ entry. MatchOption entry
        (decoded.now ≡ []) (λ row. row < length decoded.now)) }
{
    let mut mean = vec![in alloc; 0; usize::from(d)]?;
    Ok(mean_entry(decoded, &mut mean))
}

/// The Insert phase behind the Delete phase, and all that the Patch phase needs.
///
/// # Errors
///
/// Want of memory.
fn finish<R: Threads + Sync, S: Sealed, G: Gate + Sync>(
    rt: &R,
    alloc: Global,
    gate: &G,
    old: &Option<Arc<Segment<S>>>,
    left: Left,
    points: Vec<NewPoint>,
    book: &Codebook,
    params: &Params,
    workers: usize,
) -> Result<Planned<S>, WorkRefused>
    requires some { 0 < workers }
    requires few { workers ≤ 16 }
    requires book { params.now.d ≡ book.now.d }
    requires may { MayGrow book.now.d left.lists left.decoded points.items }
    ensures planned { IfOk result (λ p. (dead : List ℕ)
        → IsLeft S.tells S.bytes (index_of params.now book.now) dead (option_map arc_value old.now) left
        → IsPlanned S.tells S.bytes (index_of params.now book.now) dead (option_map arc_value old.now)
        points.items p.plan p.entry) }
    ensures refused { IfErr result (λ why. why ≡ Memory) }
{
    let Left {
        survivors,
        lists,
        decoded,
    } = left;
    let grown = grow(
        rt, alloc, gate, lists, decoded, &points, book, params, workers,
    )?;
    let entry = enter(alloc, &grown.decoded, params.d)?;
    let segment = share(old)?;
    let Grown {
        lists,
        delta,
        links,
        decoded,
    } = grown;
    let plan = PatchPlan {
        segment,
        survivors,
        base: lists,
        delta,
        points,
        links,
        decoded,
        params: *params,
    };
    Ok(Planned { plan, entry })
}

/// The Delete phase and the Insert phase of a merge (StreamingMerge of FreshDiskANN, section 5.3): what the Patch phase
/// makes the merged graph of.
///
/// The old long-term graph is that of the segment, and empty without one; `gone` are the deleted points. The new points
/// come in order of Pid, behind those of the old graph, each with d components. As many threads work as there are eyes, 1
/// to 16, each with an eye of its own, and the eyes stand where they stood, whatever happens. Where the seal tells its
/// bytes the plan is the definition's, for every number of eyes.
///
/// # Errors
///
/// `Disk` where a read failed, `BadSegment` with a block that was read and is outside the format, and `Memory`.
pub fn plan_merge<
    R: Threads + Sync,
    S: Sealed + Send + Sync,
    E: Eye<Seal = S> + Send,
    G: Gate + Sync,
>(
    rt: &R,
    alloc: Global,
    gate: &G,
    old: &Option<Arc<Segment<S>>>,
    points: Vec<NewPoint>,
    gone: &Dead,
    book: &Codebook,
    params: &Params,
    eyes: &mut Vec<E>,
) -> Result<Planned<S>, WorkRefused>
    requires workers { (0 < length eyes.old.items) × (length eyes.old.items ≤ 16) }
    requires book { params.now.d ≡ book.now.d }
    requires may { MayMerge (index_of params.now book.now) (option_map arc_value old.now) points.items }

    ensures eyes { HaveGone E.reads E.faults eyes.old.items eyes.new.items }
    // The plan is what the phases make and can be patched; told, it is the definition's plan of the old graph.
    ensures planned { IfOk result (λ p. PlansMerge S.tells S.bytes (index_of params.now book.now) gone.now
        (option_map arc_value old.now) points.items p.plan p.entry) }
    // It is refused only with the cause in one of the eyes, or for want of memory.
    ensures refused { IfErr result (AreCause E.reads E.faults S.tells
        (source_of S.bytes (option_map arc_value old.now)) params.now eyes.old.items eyes.new.items) }
{
    book.known();
    gate.pass(Spot::Phase { phase: 1 });
    let left = delete_old(rt, alloc, gate, old, gone, book, params, eyes)?;
    gate.pass(Spot::Phase { phase: 2 });
    planning::<S>();
    finish(rt, alloc, gate, old, left, points, book, params, eyes.len())
}
