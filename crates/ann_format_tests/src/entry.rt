use ann_entry::{EntryRefused, decode, encode, size};
use ann_types::{Entry, Vector};
use std::alloc::{AllocError, Global};
use std::test::Fail;

// The place behind an entry, and the entry at place 1 among other bytes, for each kind of entry.
const LINES: [(usize, [u8; 17]); 5] = [
    (16, [9, 1, 0, 0, 0, 0, 7, 0, 0, 0, 0, 0, 0, 0, 3, 4, 9]),
    (
        14,
        [9, 2, 4, 3, 2, 1, 18, 17, 16, 15, 14, 13, 12, 11, 9, 9, 9],
    ),
    (6, [9, 3, 0, 0, 0, 0, 9, 9, 9, 9, 9, 9, 9, 9, 9, 9, 9]),
    (14, [9, 4, 0, 0, 0, 0, 5, 0, 0, 0, 0, 0, 0, 0, 9, 9, 9]),
    (16, [9, 5, 0, 0, 0, 0, 7, 0, 0, 0, 0, 0, 0, 0, 3, 4, 9]),
];

// What stands at place 1, where vectors have two components.
#[derive(Clone, Copy, Debug, PartialEq, Eq)]
enum Outcome {
    Behind(usize),
    Kind,
    Short,
    Memory,
}

// Writes an entry at place 1, and gives the place behind it.
fn put(entry: &Entry, out: &mut [u8]) -> usize {
    if size(entry) < out.len() {
        encode(entry, out, 1)
    } else {
        0
    }
}

// Reads the entry at place 1, and writes it again.
fn again(alloc: Global, bytes: &[u8], out: &mut [u8]) -> Outcome {
    match decode(alloc, bytes, 1, 2) {
        Ok((entry, behind)) => {
            put(&entry, out);
            Outcome::Behind(behind)
        }
        Err(EntryRefused::Kind) => Outcome::Kind,
        Err(EntryRefused::Short) => Outcome::Short,
        Err(EntryRefused::Memory(_)) => Outcome::Memory,
    }
}

// The entries of the lines.
fn entries(alloc: Global) -> Result<[Entry; 5], AllocError> {
    Ok([
        Entry::Insert {
            by: 0,
            tag: 7,
            vector: Vector::copy(alloc, &[3, 4])?,
        },
        Entry::Delete {
            by: 0x0102_0304,
            tag: 0x0b0c_0d0e_0f10_1112,
        },
        Entry::Begin { by: 0 },
        Entry::End { by: 0, segment: 5 },
        Entry::Replace {
            by: 0,
            tag: 7,
            vector: Vector::copy(alloc, &[3, 4])?,
        },
    ])
}

// The first of these entries that isn't written as its line.
fn wrong_entry(entries: &[Entry]) -> Option<usize> {
    for (number, (entry, (behind, line))) in entries.iter().zip(LINES).enumerate() {
        let mut out = [9; 17];
        if put(entry, &mut out) != behind || out != line {
            return Some(number);
        }
    }
    None
}

#[test]
fn entries_are_written(rt: HostRuntime) -> Result<(), Fail> {
    let entries = entries(rt.alloc())?;
    assert_eq!(rt; wrong_entry(&entries), None);
    Ok(())
}

// Each byte of an entry but the first may be any, and belongs to a field that is written again: the first line and place
// where this isn't so.
fn wrong_byte(alloc: Global) -> Option<(usize, usize)> {
    for (behind, line) in LINES {
        for place in 2..17 {
            let mut bytes = line;
            bytes[place] = 0xff;
            let mut out = line;
            let outcome = again(alloc, &bytes, &mut out);
            if outcome != Outcome::Behind(behind) || (out == bytes) != (place < behind) {
                return Some((behind, place));
            }
        }
    }
    None
}

#[test]
fn entries_are_read(rt: HostRuntime) {
    assert_eq!(rt; wrong_byte(rt.alloc()), None);
}

// The first line and length at which a cut entry isn't short, or a whole one is.
fn wrong_cut(alloc: Global) -> Option<(usize, usize)> {
    for (behind, line) in LINES {
        for end in 0..17 {
            let wanted = if end < behind {
                Outcome::Short
            } else {
                Outcome::Behind(behind)
            };
            let mut out = [0; 17];
            if again(alloc, &line[..end], &mut out) != wanted {
                return Some((behind, end));
            }
        }
    }
    None
}

#[test]
fn a_cut_entry_is_short(rt: HostRuntime) {
    assert_eq!(rt; wrong_cut(rt.alloc()), None);
}

// The first kind that is none of an entry and isn't refused.
fn wrong_kind(alloc: Global) -> Option<u8> {
    for kind in [0, 6, 255] {
        let mut out = [0; 17];
        if again(alloc, &[9, kind], &mut out) != Outcome::Kind {
            return Some(kind);
        }
    }
    None
}

#[test]
fn other_kinds_are_refused(rt: HostRuntime) {
    let far = decode(rt.alloc(), &[1], usize::MAX, 2);
    assert!(rt; matches!(far, Err(EntryRefused::Short)) && size(&Entry::Begin { by: 0 }) == 5);
    assert_eq!(rt; wrong_kind(rt.alloc()), None);
}
