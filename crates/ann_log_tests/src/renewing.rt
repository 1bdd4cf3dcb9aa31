// Renewing a log, and calls that fail meanwhile.
use crate::texts::{FRAME, FRONT_TWO, failing_files, found_in, image, text};
use ann_disk::MemoryFile;
use ann_log::{Base, Entries, Files, Log};
use ann_types::Entry;
use std::alloc::{AllocError, Global};
use std::test::Fail;

// The base behind the Begin at position 9.
const BASE: Base = Base {
    position: 11,
    next: 7,
    segment: 19,
};

// The calls of the first file and of the second that fail while a log is renewed, behind three calls of opening.
const RENEWING: [(u64, u64); 13] = [
    (0, 0),
    (0, 4),
    (0, 5),
    (0, 6),
    (0, 7),
    (0, 8),
    (0, 9),
    (0, 10),
    (0, 11),
    (0, 12),
    (0, 13),
    (4, 0),
    (5, 0),
];

// Renews a log with a base and two entries, and says whether it fails and closes exactly if it is to.
fn renews(alloc: Global, log: &mut Log<MemoryFile>, fails: bool) -> Result<bool, AllocError> {
    let mut tail = Entries::new(alloc);
    tail.push(Entry::Begin { by: 3 })?;
    tail.push(Entry::Delete { by: 3, tag: 7 })?;
    if log.is_closed() || log.generation() > 1 {
        return Ok(false);
    }
    let answer = log.renew(&BASE, &tail);
    Ok(answer.is_err() == fails && log.is_closed() == fails)
}

// Opens the log in these files and renews it so, and gives its files. Want of memory is no success.
fn renewed(alloc: Global, files: Files<MemoryFile>, fails: bool) -> (bool, Files<MemoryFile>) {
    match Log::open(alloc, files) {
        Ok((mut log, _entries)) => {
            let is_told = matches!(renews(alloc, &mut log, fails), Ok(true));
            (is_told, log.into_files())
        }
        Err(refused) => (false, refused.files),
    }
}

// Whether each of twenty images of these files has what is new, or, where a call failed, what was there.
fn images_are_renewed(
    alloc: Global,
    files: &Files<MemoryFile>,
    fails: bool,
) -> Result<bool, AllocError> {
    for chooser in 0..20 {
        let found = found_in(alloc, image(files, chooser)?);
        if found != Some((2, 13)) && !(fails && found == Some((1, 1))) {
            return Ok(false);
        }
    }
    Ok(true)
}

// Whether renewing a log of one entry with these failing calls leaves the old or the new, and without them the new alone.
fn renewing_leaves(
    alloc: Global,
    bytes: &[u8],
    (first, second): (u64, u64),
) -> Result<bool, AllocError> {
    let fails = first != 0 || second != 0;
    let (is_told, left) = renewed(alloc, failing_files(alloc, bytes, first, second)?, fails);
    let sizes = (left.first.bytes().len(), left.second.bytes().len());
    if !is_told || !fails && sizes != (0, 609) {
        return Ok(false);
    }
    images_are_renewed(alloc, &left, fails)
}

fn wrong_renewing(alloc: Global) -> Result<Option<(u64, u64)>, AllocError> {
    let bytes = text(alloc, &FRONT_TWO, &FRAME)?;
    for &row in &RENEWING {
        if !renewing_leaves(alloc, &bytes, row)? {
            return Ok(Some(row));
        }
    }
    Ok(None)
}

#[test]
fn a_failing_call_leaves_the_old_or_the_new(rt: HostRuntime) -> Result<(), Fail> {
    assert_eq!(rt; wrong_renewing(rt.alloc())?, None);
    Ok(())
}
