use ann_dead::Deleted;
use ann_segment::Segment;
use ann_types::Params;
use ann_vault::Sealed;

/// The course of a beam through a segment: what it looks for, and which points are deleted.
#[derive(Drop)]
pub(crate) struct Course<'a, S: Sealed, D: Deleted> {
    pub(crate) segment: &'a Segment<S>,
    pub(crate) params: &'a Params,
    pub(crate) query: &'a [u8],
    pub(crate) dead: &'a D,
}
