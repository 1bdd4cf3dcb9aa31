// What a merge takes, and the job that it becomes.
ghost use Rattle.std.specs.Prelude.{◌≡◌, ◌+◌, ◌*◌, ◌^◌, ◌<◌, None, false, IfOk, length};
ghost use Rattle.ann_types.specs.Graph.{Graph};
ghost use Rattle.ann_types.specs.Lists.{BasedList};
ghost use Rattle.ann_mlaws.specs.Plan.{IsLti};
ghost use Rattle.ann_named.specs.Named.{IsCurrent};
ghost use Rattle.ann_view.specs.Holding.{HoldsGraph};
ghost use Rattle.ann_view.specs.Stands.{StandsFor};
ghost use Rattle.ann_view.specs.View.{index_of};
ghost use Rattle.ann_mbegin.specs.Begun.{IsJobOf, IsNumberedBelow};
ghost use Rattle.ann_mbegin.specs.Taken.{IsTaken, OpensAt};

use ann_dead::Dead;
use ann_frozen::Frozen;
use ann_merge::Job;
use ann_pq::Codebook;
use ann_segment::Segment;
use ann_types::Params;
use ann_vault::{Eye, Sealed, Vault};
use ann_view::View;
use std::alloc::{AllocError, Global};
use std::marker::Model;
use std::sync::Arc;

/// What the merge of an open Begin takes: the segment of the long-term graph, if there is one, the frozen graphs and the
/// deleted points of that moment, the index, and the number of the segment that it makes.
#[derive(Drop)]
pub struct MergeInput<S: Sealed> {
    alloc: Global,
    old: Option<Arc<Segment<S>>>,
    frozen: Vec<Arc<Frozen>>,
    gone: Dead,
    number: u64,
    params: Params,
    book: Arc<Codebook>,
}

impl<S: Sealed> Model for MergeInput<S> {
    ghost use Rattle.std.specs.Prelude.{map};
    ghost use Rattle.std.specs.Arc.{arc_value};
    ghost use Rattle.std.specs.Option.{option_map};
    ghost use Rattle.ann_merge.specs.Job.{Order, IsOrder, order_of};

    ghost Value = { Order S };

    ghost view = { λ t. order_of (option_map arc_value t.old) (map arc_value t.frozen.items)
        t.gone t.number t.params t.book.value };

    ghost invariant = { λ t. IsOrder (order_of (option_map arc_value t.old) (map arc_value t.frozen.items)
        t.gone t.number t.params t.book.value) };
}

impl<S: Sealed> MergeInput<S> {
    /// What the merge of a view's open Begin takes, which stands at this position. The parameters and the codebook are the
    /// view's. The segment that the merge makes has the number 2 * `position` + 1, and the view's own has a lesser one.
    ///
    /// # Errors
    ///
    /// The only one is want of memory.
    pub fn of_begin(
        alloc: Global,
        view: &View<S>,
        position: u64,
        params: &Params,
        book: Arc<Codebook>,
    ) -> Result<MergeInput<S>, AllocError>
        requires open_now { OpensAt view.now position }
        requires small { 2 * position + 1 < 2 ^ 64 }
        requires older { IsNumberedBelow (2 * position + 1) view.now.segment }
        requires params { params.now ≡ view.now.params }
        requires book { (book.value.d ≡ params.now.d) × (book.value.m ≡ params.now.m)
            × (book.value.book ≡ view.now.book.book) }
        ensures taken { IfOk result (IsTaken view.now book.value) }
        // For each list of the view it is what the job of the list's open Begin takes.
        ensures job { IfOk result (λ order. (h : BasedList) → StandsFor view.now h
            → IsCurrent (index_of view.now) h view.now.segment → IsJobOf (index_of view.now) h order) }
        // Where the view's segment holds a long-term graph, the merge begins with that one.
        ensures lti { IfOk result (λ order. (lti : Graph) → HoldsGraph S.bytes view.now lti
            → IsLti S.bytes (index_of view.now) order.old lti) }
    {
        view.known();
        let old = view.segment()?;
        let frozen = view.frozen_of_begin()?;
        let gone = view.dead_of_begin()?;
        Ok(MergeInput {
            alloc,
            old,
            frozen,
            gone,
            number: 2 * position + 1,
            params: *params,
            book,
        })
    }

    /// The job of the merge, which isn't done, with a vault and the eyes of its workers.
    pub fn into_job<V: Vault<Seal = S>, E: Eye<Seal = S>>(self, vault: V, eyes: Vec<E>) -> Job<V, E>
        requires { 0 < length eyes.items }
        ensures { result ≡ record {
          order = self;
          vault = vault;
          eyes = eyes.items;
          segment = None;
          faulted = false;
        } }
    {
        let MergeInput {
            alloc,
            old,
            frozen,
            gone,
            number,
            params,
            book,
        } = self;
        Job::new(alloc, vault, eyes, old, frozen, gone, number, &params, book)
    }
}
