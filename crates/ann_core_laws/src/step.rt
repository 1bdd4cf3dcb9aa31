use crate::Hits;

/// What an event comes to.
#[derive(Debug, Drop)]
pub enum Step {
    /// It took place.
    Done,
    /// It is a reply: the place at which it stands, and the hits.
    Answered { at: u64, hits: Hits },
    /// It isn't allowed in the state in which it came, and nothing has changed.
    NotAllowed,
}
