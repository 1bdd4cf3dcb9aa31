use ann_segment::Segment;
use ann_types::{Pid, Tag, Vector};
use ann_vault::Sealed;
use std::sync::Arc;

/// One step of a view: an entry of the log with the Pids and the segment that it stands for.
#[derive(Drop)]
pub enum Op<S: Sealed> {
    /// A new point; it takes the view's next Pid.
    Insert { tag: Tag, vector: Vector },
    /// A point is deleted.
    Delete { pid: Pid },
    /// A point is deleted and another, which takes the next Pid, stands for its tag.
    Replace { tag: Tag, gone: Pid, vector: Vector },
    /// A merge begins.
    Begin,
    /// The open merge ends, and this segment holds its long-term graph.
    End { segment: Arc<Segment<S>> },
    /// Nothing is applied after this one.
    Close,
}
