use crate::hit_list::HitList;
use ann_types::Tag;

/// What kind of update was accepted.
#[derive(Clone, Copy, Debug, PartialEq, Eq)]
pub enum Kind {
    Insert,
    Delete,
    Replace,
    Batch,
}

/// Why an update was refused. `at` is the length of the log's list, and `index` the place of the first refused change,
/// counted from 0.
#[derive(Clone, Copy, Debug, PartialEq, Eq)]
pub enum UpdateWord {
    /// The vector has `got` components in place of `want`.
    Dimension {
        index: u32,
        got: u32,
        want: u32,
        at: u64,
    },
    /// All Pids are taken.
    Full {
        index: u32,
        at: u64,
    },
    /// The tag of an insert is live.
    Present {
        index: u32,
        tag: Tag,
        at: u64,
    },
    /// The tag of a delete or of a replace isn't live.
    Absent {
        index: u32,
        tag: Tag,
        at: u64,
    },
    /// The log's device failed.
    LogFault,
    /// The log failed in an earlier call.
    Stopped {
        at: u64,
    },
    /// No memory was left, and nothing was logged.
    Memory,
    /// No memory was left after the entries were logged.
    MemoryLogged {
        at: u64,
    },
}

/// Why a search was refused.
#[derive(Clone, Copy, Debug, PartialEq, Eq)]
pub enum SearchWord {
    /// The query has `got` components in place of `want`.
    Dimension { got: u32, want: u32 },
    /// A read of a segment failed.
    Disk,
    /// This block of a segment is at fault.
    BadSegment { block: u64 },
    /// The view can't be entered.
    Shut,
}

/// What came of a merge. `at` is the length of the log's list.
#[derive(Clone, Copy, Debug, PartialEq, Eq)]
pub enum MergeWord {
    /// The merge ended, and this segment holds the long-term graph.
    Merged { segment: u64, at: u64 },
    /// There is nothing to merge.
    Nothing { at: u64 },
    /// A merge that began at the position `since` hasn't ended.
    Running { at: u64, since: u64 },
    /// The view can't be entered.
    Shut,
    /// A call of a device failed.
    Disk,
    /// This block of a segment is at fault.
    BadSegment { block: u64 },
    /// The log's device failed.
    LogFault,
    /// The log failed in an earlier call.
    Stopped { at: u64 },
    /// No memory was left, and nothing was logged.
    Memory,
    /// No memory was left after the entries were logged.
    MemoryLogged { at: u64 },
}

/// The reply to a command. `at` is the length of the log's list that it speaks of.
#[derive(Debug, Drop)]
pub enum Reply {
    /// An update was accepted: a change of `tag`, or a batch of `count` changes.
    Accepted {
        kind: Kind,
        tag: Tag,
        count: u32,
        at: u64,
    },
    /// An update was refused.
    Update {
        refused: UpdateWord,
        batch: bool,
    },
    /// What a search found, nearest first.
    Found {
        at: u64,
        hits: HitList,
    },
    /// A search was refused.
    Search {
        refused: SearchWord,
    },
    /// What came of a merge.
    Merge {
        word: MergeWord,
    },
    /// All `count` inserts of a fill were accepted.
    Filled {
        count: u32,
        at: u64,
    },
    /// A fill was cut short: `count` of its inserts were accepted, and the next update was refused.
    Cut {
        count: u32,
        refused: UpdateWord,
    },
    /// The exact nearest points beside those that a search found. Of the `of` exact ones it found `got`.
    Truth {
        at: u64,
        exact: HitList,
        found: HitList,
        got: u32,
        of: u32,
    },
}
