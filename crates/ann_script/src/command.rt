use crate::change_list::ChangeList;
use ann_types::{Ask, Tag};

/// One command of a script.
#[derive(Debug, Drop)]
pub enum Command {
    /// Changes of the index, which are accepted or refused as one.
    Update { changes: ChangeList, batch: bool },
    /// A search.
    Search { ask: Ask },
    /// A merge of the graphs in memory into the long-term graph.
    Merge,
    /// So many inserts of points that a generator makes from a seed, with tags from `first` on.
    Fill { seed: u32, count: u32, first: Tag },
}
