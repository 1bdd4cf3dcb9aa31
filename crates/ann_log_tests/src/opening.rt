// Calls that fail while a log is opened.
use crate::texts::{
    FRAME, FRONT_TWO, answers, changed, failing_files, have, images_have, opened, text, without,
};
use ann_log::OpenWhy;
use std::alloc::{AllocError, Global};
use std::test::Fail;

// Three bytes stand behind the last gate of a log. The calls of its first file and of the second that fail while it is
// opened, 0 for none, and how many bytes are cut off then. Opening takes three calls of each file, and two of the first
// for the cut. A cut that fails takes half of the bytes, rounded down.
const OPENING: [(u64, u64, usize); 9] = [
    (0, 0, 3),
    (1, 0, 0),
    (2, 0, 0),
    (3, 0, 0),
    (4, 0, 1),
    (5, 0, 3),
    (0, 1, 0),
    (0, 2, 0),
    (0, 3, 0),
];

// Whether opening with these failing calls leaves so many bytes fewer, and the entry.
fn opening_keeps(
    alloc: Global,
    bytes: &[u8],
    (first, second, cut): (u64, u64, usize),
) -> Result<bool, AllocError> {
    let fails = first != 0 || second != 0;
    let wanted = if fails { Err(OpenWhy::Disk) } else { Ok(1) };
    let (found, left) = opened(alloc, failing_files(alloc, bytes, first, second)?);
    let is_left = found == wanted && have(&left, without(bytes, cut), &[]);
    if !is_left {
        return Ok(false);
    }
    images_have(alloc, &left, Ok(1), Ok(1))
}

fn wrong_opening(alloc: Global, bytes: &[u8]) -> Result<Option<(u64, u64)>, AllocError> {
    for &row in &OPENING {
        if !opening_keeps(alloc, bytes, row)? {
            return Ok(Some((row.0, row.1)));
        }
    }
    Ok(None)
}

// A log whose last gate is closed, with three bytes behind it.
fn text_with_rest(alloc: Global) -> Result<Vec<u8>, AllocError> {
    let frame = changed(alloc, &FRAME, 20, 0x7f)?;
    let mut bytes = text(alloc, &FRONT_TWO, &frame)?;
    bytes.extend_from_slice(&[15, 0, 0])?;
    Ok(bytes)
}

fn opening_is_told(alloc: Global) -> Result<(bool, Option<(u64, u64)>), AllocError> {
    let bytes = text_with_rest(alloc)?;
    Ok((
        answers(alloc, &bytes, &[], Ok(1), 3)?,
        wrong_opening(alloc, &bytes)?,
    ))
}

#[test]
fn a_failing_call_of_opening_keeps_the_log(rt: HostRuntime) -> Result<(), Fail> {
    assert_eq!(rt; opening_is_told(rt.alloc())?, (true, None));
    Ok(())
}
