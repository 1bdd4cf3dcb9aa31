use ann_tags::Tags;
use ann_types::Pid;

/// What the entries of a log stand on, without the graph of the base.
#[derive(Drop)]
pub struct Basis {
    /// The position of the first entry.
    pub position: u64,
    /// The Pid of the next point.
    pub next: Pid,
    /// The tags of the base's points.
    pub tags: Tags,
}
