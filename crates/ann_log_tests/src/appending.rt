// Appending to a log, and calls that fail meanwhile.
use crate::texts::{FRAME, FRONT_TWO, failing_files, files, have, images_have, text};
use ann_disk::MemoryFile;
use ann_log::{Files, Log};
use ann_types::Entry;
use std::alloc::{AllocError, Global};
use std::test::Fail;

// Appends three entries, as long as the log isn't closed.
fn append_three(log: &mut Log<MemoryFile>) {
    for _turn in 0..3 {
        if !log.is_closed() {
            let _answer = log.append(&[Entry::Begin { by: 2 }]);
        }
    }
}

// The position behind the last entry of a log to which three entries were appended, whether it is closed, and its files.
fn appended(alloc: Global, files: Files<MemoryFile>) -> (u64, bool, Files<MemoryFile>) {
    match Log::open(alloc, files) {
        Ok((mut log, _entries)) => {
            append_three(&mut log);
            (log.count(), log.is_closed(), log.into_files())
        }
        Err(refused) => (0, true, refused.files),
    }
}

// Up to three entries are appended to the one that is there, and this call of the first file fails: 1 to 3 are of opening,
// and four each of an append. So the log has one entry for each four calls, and an image maybe one more.
fn appending_keeps(alloc: Global, bytes: &[u8], failing: u64) -> Result<bool, AllocError> {
    let (count, is_closed, left) = appended(alloc, failing_files(alloc, bytes, failing, 0)?);
    let is_told = count == failing / 4 && is_closed == (failing < 16);
    let one = (failing / 4) as usize;
    let other = if failing < 16 { one + 1 } else { one };
    if !is_told {
        return Ok(false);
    }
    images_have(alloc, &left, Ok(one), Ok(other))
}

fn wrong_appending(alloc: Global) -> Result<Option<u64>, AllocError> {
    let bytes = text(alloc, &FRONT_TWO, &FRAME)?;
    for failing in 4..=16 {
        if !appending_keeps(alloc, &bytes, failing)? {
            return Ok(Some(failing));
        }
    }
    Ok(None)
}

#[test]
fn a_failing_call_closes_the_log(rt: HostRuntime) -> Result<(), Fail> {
    assert_eq!(rt; wrong_appending(rt.alloc())?, None);
    Ok(())
}

// Whether two entries that are appended at once stand in one frame, and the other file is as it was.
fn is_one_frame(alloc: Global) -> Result<bool, AllocError> {
    let old = text(alloc, &FRONT_TWO, &[0])?;
    let new = text(
        alloc,
        &FRONT_TWO,
        &[1, 10, 0, 0, 0, 3, 2, 0, 0, 0, 3, 4, 0, 0, 0, 0],
    )?;
    match Log::open(alloc, files(alloc, &old, &[9, 9])?) {
        Ok((mut log, _entries)) => {
            let answer = log.append(&[Entry::Begin { by: 2 }, Entry::Begin { by: 4 }]);
            let count = log.count();
            Ok(answer.is_ok() && count == 2 && have(&log.into_files(), &new, &[9, 9]))
        }
        Err(_) => Ok(false),
    }
}

#[test]
fn what_is_appended_is_one_frame(rt: HostRuntime) -> Result<(), Fail> {
    assert!(rt; is_one_frame(rt.alloc())?);
    Ok(())
}
