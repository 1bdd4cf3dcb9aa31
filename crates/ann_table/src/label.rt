use ann_types::{Pid, Tag};

/// What a row has besides its vector and its neighbours.
#[derive(Clone, Copy, Debug)]
pub(crate) struct Label {
    pub(crate) tag: Tag,
    pub(crate) pid: Pid,
    /// Of the row's neighbours below this row none leaves out a later one.
    pub(crate) newer: u32,
}
