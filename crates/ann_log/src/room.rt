// The bytes through which a log writes.
ghost use Rattle.std.specs.Prelude.{◌≡◌, ◌+◌, ◌≤◌, ◌<◌, ◌^◌, ◌++◌, ◌∷◌, [], length, take, IfOk};
ghost use Rattle.ann_entry.specs.EntryBytes.{entries_bytes};
ghost use Rattle.ann_frame.specs.Frames.{AreEntries, HaveComponents, frame_bytes};
ghost use Rattle.ann_log.specs.LogView.{HasRoom};

use ann_frame::{frame_size, write_frame};
use ann_preamble::size;
use ann_types::Entry;
use std::alloc::{AllocError, Global};

/// The bytes through which a log writes, so that it takes no memory later.
#[derive(Drop)]
pub(crate) struct Room {
    // A frame of 64 entries.
    pub(crate) frame: Vec<u8>,
    // A preamble.
    pub(crate) preamble: Vec<u8>,
}

impl Room {
    /// Room for vectors of d components. The only error is want of memory.
    pub(crate) fn new(alloc: Global, d: u16) -> Result<Room, AllocError>
        ensures { IfOk result (λ room. HasRoom d room.frame.items room.preamble.items) }
    {
        let mut frame = Vec::new(alloc);
        frame.resize(frame_size(d), 0)?;
        let mut preamble = Vec::new(alloc);
        preamble.resize(size(d), 0)?;
        Ok(Room { frame, preamble })
    }

    /// Writes a frame of at most 64 entries with a gate that isn't open behind it, and gives the number of their bytes.
    pub(crate) fn put_frame(&mut self, d: u16, entries: &[Entry]) -> usize
        requires room { HasRoom d self.old.frame.items self.old.preamble.items }
        requires few { length entries.now ≤ 64 }
        requires components { HaveComponents d entries.now }
        ensures room { HasRoom d self.new.frame.items self.new.preamble.items }
        ensures written { take result self.new.frame.items ≡ frame_bytes entries.now ++ 0 ∷ [] }
        ensures size { result ≡ length (frame_bytes entries.now) + 1 }
        ensures fits { result ≤ length self.new.frame.items }
        ensures each { AreEntries d entries.now }
        ensures short { length (entries_bytes entries.now) < 2 ^ 32 }
    {
        write_frame(entries, &mut self.frame)
    }
}
