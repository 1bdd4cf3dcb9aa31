use crate::vector::Vector;
use crate::{Pid, Tag};

/// A point that a merge adds to the long-term graph.
#[derive(Debug, Drop)]
pub struct NewPoint {
    pub pid: Pid,
    pub tag: Tag,
    pub vector: Vector,
}
