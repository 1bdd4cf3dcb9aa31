use crate::Tag;
use crate::vector::Vector;

/// One change that a client asks for.
#[derive(Debug, Drop)]
pub enum Change {
    /// Adds a point under a tag that isn't live.
    Insert { tag: Tag, vector: Vector },
    /// Takes a live tag away.
    Delete { tag: Tag },
    /// Gives a live tag a new vector, in one step.
    Replace { tag: Tag, vector: Vector },
}
