use ann_dead::DeadPin;
use ann_pq::Codebook;
use ann_segment::Segment;
use ann_types::Params;
use ann_vault::Sealed;
use std::marker::Model;
use std::sync::Arc;

/// What a search of the long-term graph needs of a view, as it stood when it was pinned.
///
/// A server pins and leaves the view before it reads the disk, so no search holds the view meanwhile.
#[derive(Drop)]
pub struct Pinned<S: Sealed> {
    pub(crate) params: Params,
    pub(crate) book: Arc<Codebook>,
    pub(crate) at: u64,
    pub(crate) dead: DeadPin,
    pub(crate) segment: Option<Arc<Segment<S>>>,
}

impl<S: Sealed> Model for Pinned<S> {
    ghost use Rattle.ann_view.specs.Pinned.{PinnedView, ArePinned, kept};

    ghost Value = { PinnedView S };

    ghost view = { λ p. kept p.params p.book p.at p.dead p.segment };

    ghost invariant = { λ p. ArePinned (kept p.params p.book p.at p.dead p.segment) };
}
