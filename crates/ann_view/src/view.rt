ghost use Rattle.std.specs.Prelude.{◌≡◌, ◌<◌, ◌&&◌, None, Some, IsSome, IfOk, MatchOption, All, map, take, is_none};
ghost use Rattle.std.specs.Arc.{arc_value};
ghost use Rattle.std.specs.Option.{option_map};
ghost use Rattle.ann_types.specs.Legal.{has_work};
ghost use Rattle.ann_table.specs.Node.{graph_of};
ghost use Rattle.ann_frozen.specs.Frozen.{FrozenView};
ghost use Rattle.ann_segment.specs.Directory.{Item};
ghost use Rattle.ann_view.specs.Temp.{IsTemp};
ghost use Rattle.ann_view.specs.View.{IsView, opening};
ghost use Rattle.ann_view.specs.Pinned.{pinned};

use crate::pinned::Pinned;
use crate::temp::TempIndex;
use ann_dead::Dead;
use ann_frozen::Frozen;
use ann_pq::Codebook;
use ann_segment::Segment;
use ann_types::{Params, Pid};
use ann_vault::Sealed;
use std::alloc::{AllocError, Global};
use std::marker::Model;
use std::sync::Arc;

/// The state of a list of entries: what is in memory, and the segment that holds the long-term graph.
///
/// Contracts see it as its count of entries, its next Pid, its state and its segment. It stands for each list that has
/// these.
#[derive(Drop)]
pub struct View<S: Sealed> {
    pub(crate) book: Arc<Codebook>,
    pub(crate) at: u64,
    pub(crate) next: Pid,
    pub(crate) temp: TempIndex,
    pub(crate) segment: Option<Arc<Segment<S>>>,
    pub(crate) closed: bool,
}

impl<S: Sealed> Model for View<S> {
    ghost use Rattle.ann_view.specs.View.{IndexView, IsView, shown};

    ghost Value = { IndexView S };

    ghost view = { λ v. shown v.temp v.book v.at v.next v.segment v.closed };

    ghost invariant = { λ v. IsView (shown v.temp v.book v.at v.next v.segment v.closed) };
}

impl<S: Sealed> View<S> {
    /// The view of the list without entries over the empty base. The only error is want of memory.
    pub fn new(alloc: Global, params: &Params, book: Arc<Codebook>) -> Result<View<S>, AllocError>
        requires book { (book.value.d ≡ params.now.d) × (book.value.m ≡ params.now.m) }
        ensures { IfOk result (λ view. view ≡ opening params.now book.value 0 0 None) }
    {
        Ok(View {
            book,
            at: 0,
            next: 0,
            temp: TempIndex::new(alloc, params)?,
            segment: None,
            closed: false,
        })
    }

    /// The view of a list whose state is a long-term graph alone: its length, its next Pid, which is above the segment's
    /// Pids, and the segment. The only error is want of memory.
    pub fn resume(
        alloc: Global,
        params: &Params,
        book: Arc<Codebook>,
        at: u64,
        next: Pid,
        segment: Arc<Segment<S>>,
    ) -> Result<View<S>, AllocError>
        requires book { (book.value.d ≡ params.now.d) × (book.value.m ≡ params.now.m) }
        requires segment { segment.value.m ≡ params.now.m }
        requires below { All (λ (x : Item). x.0 < next) segment.value.items }
        ensures { IfOk result (λ view. view ≡ opening params.now book.value at next (Some segment.value)) }
    {
        segment.known();
        Ok(View {
            book,
            at,
            next,
            temp: TempIndex::new(alloc, params)?,
            segment: Some(segment),
            closed: false,
        })
    }

    /// What is true of every view: its Pids rise with age and are below the next one. It does nothing.
    pub fn known(&self)
        ensures view { IsView self.now }
        ensures memory { IsTemp (record { params = self.now.params; state = self.now.memory }) }
    {
        self.temp.known();
    }

    /// Whether a merge may begin: none is open, and there is something to merge.
    pub fn can_begin(&self) -> bool
        ensures { result ≡ (is_none self.now.memory.begun && has_work self.now.memory) }
    {
        self.temp.can_begin()
    }

    /// The frozen graphs that the open merge takes, the oldest first and shared. The only error is want of memory.
    pub fn frozen_of_begin(&self) -> Result<Vec<Arc<Frozen>>, AllocError>
        requires { IsSome self.now.memory.begun }
        ensures graphs { IfOk result (λ graphs. MatchOption self.now.memory.begun ⊥
            (λ b. map (λ (f : FrozenView). graph_of f.nodes) (map arc_value graphs.items)
            ≡ take b.frozen self.now.memory.ros)) }
        ensures params { IfOk result (λ graphs.
            All (λ (f : FrozenView). f.params ≡ self.now.params) (map arc_value graphs.items)) }
    {
        self.temp.frozen_of_begin()
    }

    /// The deleted points that the open merge takes. The only error is want of memory.
    pub fn dead_of_begin(&self) -> Result<Dead, AllocError>
        requires { IsSome self.now.memory.begun }
        ensures { IfOk result (λ dead. MatchOption self.now.memory.begun ⊥ (λ b. dead ≡ b.gone)) }
    {
        self.temp.dead_of_begin()
    }

    /// The segment that holds the long-term graph, shared; none exactly where the view has none. The only error is want
    /// of memory.
    pub fn segment(&self) -> Result<Option<Arc<Segment<S>>>, AllocError>
        ensures { IfOk result (λ segment. option_map arc_value segment ≡ self.now.segment) }
    {
        match &self.segment {
            Some(segment) => Ok(Some(segment.clone()?)),
            None => Ok(None),
        }
    }

    /// How many entries lead to this view.
    pub fn at(&self) -> u64
        ensures { result ≡ self.now.at }
    {
        self.at
    }

    /// The Pid that the next point takes.
    pub fn next(&self) -> Pid
        ensures { result ≡ self.now.next }
    {
        self.next
    }

    /// The same view once more; the two share what doesn't change. The only error is want of memory.
    pub fn copy(&self) -> Result<View<S>, AllocError>
        ensures { IfOk result (λ copy. copy ≡ self.now) }
    {
        let book = self.book.clone()?;
        let segment = self.segment()?;
        Ok(View {
            book,
            at: self.at,
            next: self.next,
            temp: self.temp.copy()?,
            segment,
            closed: self.closed,
        })
    }

    /// Shares what a search of the long-term graph needs, as it stands now. The only error is want of memory.
    pub fn pin(&self) -> Result<Pinned<S>, AllocError>
        ensures { IfOk result (λ pin. pin ≡ pinned self.now) }
    {
        let book = self.book.clone()?;
        let segment = self.segment()?;
        Ok(Pinned {
            params: *self.temp.params(),
            book,
            at: self.at,
            dead: self.temp.pin()?,
            segment,
        })
    }
}
