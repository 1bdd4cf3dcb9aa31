// The view of a list, from its base on.
ghost use Rattle.std.specs.Prelude.{◌≡◌, ◌<◌, ◌+◌, ◌^◌, length, IfOk};
ghost use Rattle.ann_types.specs.Lists.{BasedList};
ghost use Rattle.ann_view.specs.Holding.{HoldsGraph};
ghost use Rattle.ann_view.specs.Stands.{StandsFor, lti_of};
ghost use Rattle.ann_resume.specs.Resumed.{CanStart, IsResumedBy, IsResumed, HoldsAtStart, opened_at, position_of};

use crate::apply::apply_all;
use ann_pq::Codebook;
use ann_segment::Segment;
use ann_types::{Entry, Params, Pid};
use ann_vault::Sealed;
use ann_view::View;
use std::alloc::{AllocError, Global};
use std::sync::Arc;

/// The base of a list that has a long-term graph.
#[derive(Drop)]
pub struct Start<S: Sealed> {
    /// The position of the first entry.
    pub at: u64,
    /// The Pid of the next point, above all of the segment.
    pub next: Pid,
    /// The segment of the graph.
    pub segment: Segment<S>,
}

/// The view of a list on this base, or on the empty one: its entries are applied one after the other. None of them is an End.
/// With each entry stands the Pid that it deletes.
///
/// The only error is want of memory.
pub fn resume<S: Sealed>(
    alloc: Global,
    params: &Params,
    book: Codebook,
    start: Option<Start<S>>,
    entries: &[Entry],
    gone: &[Option<Pid>],
) -> Result<View<S>, AllocError>
    requires book { (book.d ≡ params.now.d) × (book.m ≡ params.now.m) }
    requires start { CanStart params.now start }
    requires room { position_of start + length entries.now < 2 ^ 64 }
    requires list { (h : BasedList) × IsResumedBy params.now book start entries.now gone.now h }
    ensures stands { (h : BasedList) → IsResumedBy params.now book start entries.now gone.now h →
        IfOk result (λ view. StandsFor view h) }
    // Where the segment holds the base's graph, the view's segment holds the list's long-term graph.
    ensures holds { (h : BasedList) → IsResumedBy params.now book start entries.now gone.now h →
        HoldsAtStart S.bytes params.now book.book start h.base.graph →
        IfOk result (λ view. HoldsGraph S.bytes view (lti_of view h)) }
    ensures index { IfOk result (IsResumed params.now book start) }
{
    let mut view = open_view(alloc, params, book, start)?;
    apply_all(alloc, &mut view, entries, gone)?;
    Ok(view)
}

// The view of a base without entries. The only error is want of memory.
fn open_view<S: Sealed>(
    alloc: Global,
    params: &Params,
    book: Codebook,
    start: Option<Start<S>>,
) -> Result<View<S>, AllocError>
    requires book { (book.d ≡ params.now.d) × (book.m ≡ params.now.m) }
    requires start { CanStart params.now start }
    ensures { IfOk result (λ view. view ≡ opened_at params.now book start) }
{
    let book = Arc::new(alloc, book)?;
    match start {
        None => View::new(alloc, params, book),
        Some(start) => {
            let segment = Arc::new(alloc, start.segment)?;
            View::resume(alloc, params, book, start.at, start.next, segment)
        }
    }
}
