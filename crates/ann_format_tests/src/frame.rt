use ann_frame::{Entries, FramesRefused, frame_size, read_frames, write_frame};
use ann_types::{Entry, Vector};
use std::alloc::Global;
use std::test::Fail;

// A frame of two entries, one of one entry, and a gate that isn't open.
const TWO: [u8; 26] = [
    1, 10, 0, 0, 0, 3, 7, 0, 0, 0, 3, 8, 0, 0, 0, 1, 5, 0, 0, 0, 3, 9, 0, 0, 0, 0,
];

// The entry at fault where only so many of these bytes are there; the first gate always is.
const CUT: [u64; 26] = [
    0, 0, 0, 0, 0, 0, 0, 0, 0, 0, 1, 1, 1, 1, 1, 2, 2, 2, 2, 2, 2, 2, 2, 2, 2, 3,
];

// What bytes stand for.
#[derive(Clone, Copy, Debug, PartialEq, Eq)]
enum Outcome {
    Entries(usize, usize),
    Bad(u64),
    Memory,
}

// How many entries are read from a gate on, and the gate behind them.
fn found_from(alloc: Global, bytes: &[u8], gate: usize) -> Outcome {
    if gate >= bytes.len() {
        return Outcome::Memory;
    }
    match read_frames(alloc, bytes, gate, 2) {
        Ok(read) => Outcome::Entries(read.entries.items().len(), read.gate),
        Err(FramesRefused::Bad { entry }) => Outcome::Bad(entry),
        Err(FramesRefused::Memory) => Outcome::Memory,
    }
}

// The first place at which another byte stands for something else than it should.
fn wrong_place(alloc: Global) -> Option<usize> {
    for (place, byte, wanted) in [
        (0, 1, Outcome::Entries(3, 25)),
        (0, 0x7f, Outcome::Entries(0, 0)),
        (15, 0x7f, Outcome::Entries(2, 15)),
        (25, 0x7f, Outcome::Entries(3, 25)),
        (25, 1, Outcome::Bad(3)),
        (1, 0, Outcome::Bad(0)),
        (1, 9, Outcome::Bad(1)),
        (1, 11, Outcome::Bad(2)),
        (4, 1, Outcome::Bad(2)),
        (5, 6, Outcome::Bad(0)),
        (10, 6, Outcome::Bad(1)),
        (16, 0, Outcome::Bad(2)),
        (20, 0, Outcome::Bad(2)),
    ] {
        let mut bytes = TWO;
        if let Some(old) = bytes.get_mut(place) {
            *old = byte;
        }
        if found_from(alloc, &bytes, 0) != wanted {
            return Some(place);
        }
    }
    None
}

#[test]
fn frames_are_read(rt: HostRuntime) {
    assert_eq!(rt; wrong_place(rt.alloc()), None);
    assert_eq!(rt; found_from(rt.alloc(), &TWO, 15), Outcome::Entries(1, 25));
}

// The first length at which the entry at fault is another one.
fn wrong_cut(alloc: Global) -> Option<usize> {
    for (end, entry) in CUT.iter().enumerate().skip(1) {
        if found_from(alloc, &TWO[..end], 0) != Outcome::Bad(*entry) {
            return Some(end);
        }
    }
    None
}

#[test]
fn a_cut_is_bad(rt: HostRuntime) {
    assert_eq!(rt; wrong_cut(rt.alloc()), None);
}

#[test]
fn a_frame_is_written(rt: HostRuntime) -> Result<(), Fail> {
    let alloc = rt.alloc();
    let mut entries = Entries::new(alloc);
    entries.push(Entry::Begin { by: 0x0102_0304 })?;
    entries.push(Entry::Insert {
        by: 5,
        tag: 6,
        vector: Vector::copy(alloc, &[7, 8])?,
    })?;
    let mut out = [9; 27];
    let size = write_frame(entries.items(), &mut out);
    let wanted = [
        20, 0, 0, 0, 3, 4, 3, 2, 1, 1, 5, 0, 0, 0, 6, 0, 0, 0, 0, 0, 0, 0, 7, 8, 0, 9, 9,
    ];
    assert!(rt; size == 25 && out == wanted && frame_size(2) == 965);
    Ok(())
}
