use crate::EntryList;
use ann_types::Ask;

/// One atomic action of one thread of a running index.
#[derive(Debug, Drop)]
pub enum Event {
    /// A frame of 1 to 64 entries is appended to the log, none of them an End.
    Frame { entries: EntryList },
    /// All that is logged is shown to readers.
    Show,
    /// A reader comes in, and pins what is shown. Readers are the numbers below 32.
    Enter { reader: u32 },
    /// The answer of a search by a reader that is in, at what it has pinned.
    Reply { reader: u32, ask: Ask },
    /// A reader goes.
    Leave { reader: u32 },
    /// A piece of the open merge is finished: 256 rows of the merged graph, the last piece fewer.
    Piece { number: u64 },
    /// The segment of the open merge is sealed.
    Seal,
    /// The open merge ends, by a client: its segment is the long-term graph from here on.
    Switch { by: u32 },
    /// A sealed segment is removed.
    Remove { number: u64 },
}
