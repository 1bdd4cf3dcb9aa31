use crate::Tag;
use crate::vector::Vector;

/// One entry of the log, by a client.
#[derive(Debug, Drop)]
pub enum Entry {
    /// A new point.
    Insert { by: u32, tag: Tag, vector: Vector },
    /// A live tag is taken away.
    Delete { by: u32, tag: Tag },
    /// A merge begins (StreamingMerge of FreshDiskANN): what stands before it goes into the next long-term graph.
    Begin { by: u32 },
    /// The open merge ends, and its long-term graph is the one in this segment.
    End { by: u32, segment: u64 },
    /// A live tag gets a new vector, so that there is no moment at which the tag is away.
    Replace { by: u32, tag: Tag, vector: Vector },
}
