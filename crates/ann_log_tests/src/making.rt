// Making a log, and calls that fail meanwhile.
use crate::texts::{FRAME, FRONT_TWO, failing_files, files, have, images_have, text};
use ann_disk::MemoryFile;
use ann_log::{Files, Log, MakeRefused, MakeWhy, OpenWhy};
use ann_preamble::Preamble;
use std::alloc::{AllocError, Global};
use std::test::Fail;

// The calls of the first file and of the second that fail while a log is made; 0 is none.
const MAKING: [(u64, u64); 15] = [
    (0, 0),
    (1, 0),
    (2, 0),
    (3, 0),
    (4, 0),
    (5, 0),
    (6, 0),
    (7, 0),
    (8, 0),
    (9, 0),
    (10, 0),
    (0, 1),
    (0, 2),
    (0, 3),
    (0, 4),
];

// How making a log ends, and its files.
type Made = (Result<(), MakeWhy>, Files<MemoryFile>);

// Makes a log in these files, with the parameters and the codebook of the preamble that these bytes begin with. Where
// there is no memory for them, that is the answer.
fn made(alloc: Global, bytes: &[u8], files: Files<MemoryFile>) -> Made {
    let Ok(Some(found)) = Preamble::read(alloc, bytes) else {
        return (Err(MakeWhy::Memory), files);
    };
    match Log::make(alloc, files, &found.params, found.book.bytes()) {
        Ok(log) => (Ok(()), log.into_files()),
        Err(MakeRefused { why, files }) => (Err(why), files),
    }
}

// Whether making a log with these failing calls leaves no index or an empty one, and without them these bytes.
fn making_leaves(
    alloc: Global,
    bytes: &[u8],
    (first, second): (u64, u64),
) -> Result<bool, AllocError> {
    let (answer, left) = made(alloc, bytes, failing_files(alloc, &[], first, second)?);
    let fails = first != 0 || second != 0;
    let (is_told, other) = if fails {
        (answer == Err(MakeWhy::Disk), Err(OpenWhy::NoIndex))
    } else {
        (answer == Ok(()) && left.first.bytes() == bytes, Ok(0))
    };
    if !is_told {
        return Ok(false);
    }
    images_have(alloc, &left, Ok(0), other)
}

// What is made is a preamble and a closed gate.
fn wrong_making(alloc: Global) -> Result<Option<(u64, u64)>, AllocError> {
    let bytes = text(alloc, &FRONT_TWO, &[0])?;
    for &row in &MAKING {
        if !making_leaves(alloc, &bytes, row)? {
            return Ok(Some(row));
        }
    }
    Ok(None)
}

#[test]
fn a_failing_call_leaves_no_index(rt: HostRuntime) -> Result<(), Fail> {
    assert_eq!(rt; wrong_making(rt.alloc())?, None);
    Ok(())
}

// Whether making a log where these bytes are is refused, and leaves both files.
fn is_not_made(
    alloc: Global,
    whole: &[u8],
    first: &[u8],
    second: &[u8],
) -> Result<bool, AllocError> {
    let (answer, left) = made(alloc, whole, files(alloc, first, second)?);
    Ok(answer == Err(MakeWhy::IndexThere) && have(&left, first, second))
}

fn no_other_is_made(alloc: Global) -> Result<(bool, bool), AllocError> {
    let bytes = text(alloc, &FRONT_TWO, &FRAME)?;
    Ok((
        is_not_made(alloc, &bytes, &bytes, &[9])?,
        is_not_made(alloc, &bytes, &[9], &bytes)?,
    ))
}

#[test]
fn no_log_is_made_over_another(rt: HostRuntime) -> Result<(), Fail> {
    assert_eq!(rt; no_other_is_made(rt.alloc())?, (true, true));
    Ok(())
}
