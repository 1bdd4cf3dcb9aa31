use ann_segment::Segment;
use ann_vault::Vault;
use std::sync::Arc;

/// What a job gives back.
#[derive(Drop)]
pub struct JobParts<V: Vault, E: Drop> {
    pub vault: V,
    /// The eyes, in the order in which they were given.
    pub eyes: Vec<E>,
    /// The old segment, if there was one.
    pub old: Option<Arc<Segment<V::Seal>>>,
    /// The merged segment; none exactly where the job isn't done.
    pub segment: Option<Arc<Segment<V::Seal>>>,
}
