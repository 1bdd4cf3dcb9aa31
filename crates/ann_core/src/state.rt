use crate::kept::Kept;
use ann_pq::Codebook;
use ann_types::{Entry, Params};
use std::alloc::Global;
use std::sync::Arc;

/// What the core keeps.
#[derive(Drop)]
pub(crate) struct State {
    pub(crate) alloc: Global,
    pub(crate) params: Params,
    pub(crate) book: Arc<Codebook>,
    /// The logged list, on the empty base.
    pub(crate) list: Vec<Entry>,
    /// How many of its entries are shown.
    pub(crate) shown: usize,
    /// For each reader the length of the prefix that it has pinned, or none.
    pub(crate) pins: Vec<Option<usize>>,
    /// The numbers of the finished pieces.
    pub(crate) pieces: Vec<u64>,
    /// Whether the open merge is sealed.
    pub(crate) sealed: bool,
    /// The kept segments, in order of sealing.
    pub(crate) kept: Vec<Kept>,
}
