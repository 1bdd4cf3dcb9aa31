use crate::Tag;

/// A point that a search found, and its exact squared distance to the query.
#[derive(Clone, Copy, Debug, PartialEq, Eq)]
pub struct Hit {
    pub tag: Tag,
    pub distance: u32,
}
