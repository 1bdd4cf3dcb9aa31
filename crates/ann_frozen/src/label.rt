use ann_types::{Pid, Tag};

/// What a row has besides its vector, and where its neighbours stand: `count` of them from `start` on.
#[derive(Clone, Copy, Debug)]
pub(crate) struct Label {
    pub(crate) tag: Tag,
    pub(crate) start: usize,
    pub(crate) pid: Pid,
    pub(crate) count: u8,
}
