//! Logs that are cut or changed, and entries that may not stand where they do.

use crate::check::looks;
use crate::store::{CALM, Told, reopened, sizes, stored};
use crate::texts::{LINE, Step, log};
use Step::{Begin, Delete, End, Insert, Replace};
use ann_recover::RecoverWhy;
use std::alloc::{AllocError, Global};
use std::test::Fail;

// Whether this is told of a log by looking into it and by opening it, and its files then have these sizes.
fn tells(alloc: Global, log: &[u8], wanted: Told, left: (usize, usize)) -> Result<bool, Fail> {
    let (told, store) = reopened(alloc, stored(alloc, log, &[], CALM)?)?;
    Ok(told == wanted && sizes(&store) == left && looks(alloc, log, &[], wanted)?)
}

// The fields of version 2 before the codebook: d 2, R 2, l_build 4, alpha 1/1, w 1, m 2, freeze_at 100, generation 1, and
// the empty base.
const PLANE: [u8; 61] = [
    1, 65, 78, 78, 76, 79, 71, 48, 50, 2, 0, 2, 0, 4, 0, 1, 0, 1, 0, 1, 0, 2, 0, 0, 0, 100, 0, 0,
    0, 1, 0, 0, 0, 0, 0, 0, 0, 0, 0, 0, 0, 0, 0, 0, 0, 0, 0, 0, 0, 0, 0, 0, 0, 0, 0, 0, 0, 0, 0, 0,
    0,
];

// Those of version 1.
const PLANE_ONE: [u8; 29] = [
    1, 65, 78, 78, 76, 79, 71, 48, 49, 2, 0, 2, 0, 4, 0, 1, 0, 1, 0, 1, 0, 2, 0, 0, 0, 100, 0, 0, 0,
];

// An open gate, the frame with an Insert by 0 of tag 7 at (3, 4), and a gate 0x00.
const FRAME: [u8; 21] = [
    1, 15, 0, 0, 0, 1, 0, 0, 0, 0, 7, 0, 0, 0, 0, 0, 0, 0, 3, 4, 0,
];

// These fields, the codebook of two parts with the centroids 0 to 255, and these bytes from the first gate on.
fn plane(alloc: Global, front: &[u8], frames: &[u8]) -> Result<Vec<u8>, AllocError> {
    let mut bytes = front.to_vec(alloc)?;
    bytes.extend_from_slice(b"ANNPQ001\x02\0\x02\0")?;
    for place in 0..512u16 {
        bytes.push(place.to_le_bytes()[0])?;
    }
    bytes.extend_from_slice(frames)?;
    Ok(bytes)
}

// The fields, the bytes from the first gate on, what is told, and how long the files are then.
const PLANES: [(&[u8], &[u8], Told, (usize, usize)); 6] = [
    (&PLANE, &FRAME, Ok((1, 1, None)), (606, 0)),
    // Bytes behind the last gate are cut off.
    (
        &PLANE,
        &[
            1, 15, 0, 0, 0, 1, 0, 0, 0, 0, 7, 0, 0, 0, 0, 0, 0, 0, 3, 4, 0, 15, 0, 0,
        ],
        Ok((1, 1, None)),
        (606, 0),
    ),
    // A gate of another byte isn't open, and stays.
    (
        &PLANE,
        &[
            1, 15, 0, 0, 0, 1, 0, 0, 0, 0, 7, 0, 0, 0, 0, 0, 0, 0, 3, 4, 0x7f,
        ],
        Ok((1, 1, None)),
        (606, 0),
    ),
    // A frame behind a gate that isn't open is none.
    (
        &PLANE,
        &[
            0x7f, 15, 0, 0, 0, 1, 0, 0, 0, 0, 7, 0, 0, 0, 0, 0, 0, 0, 3, 4, 0,
        ],
        Ok((0, 0, None)),
        (586, 0),
    ),
    (
        &PLANE,
        &[1, 15, 0, 0, 0, 1, 0],
        Err(RecoverWhy::BadLog { entry: 0 }),
        (592, 0),
    ),
    // A log of version 1, of 574 bytes, is written anew to the other file.
    (&PLANE_ONE, &FRAME, Ok((1, 1, None)), (0, 606)),
];

// The first of these that is told otherwise.
fn wrong_plane(alloc: Global) -> Result<Option<usize>, Fail> {
    for (row, &(front, frames, told, left)) in PLANES.iter().enumerate() {
        let bytes = plane(alloc, front, frames)?;
        if !tells(alloc, &bytes, told, left)? {
            return Ok(Some(row));
        }
    }
    Ok(None)
}

#[test]
fn a_log_of_one_insert(rt: HostRuntime) -> Result<(), Fail> {
    assert_eq!(rt; wrong_plane(rt.alloc())?, None);
    Ok(())
}

// Entries of the line index, and the position of the first that may not stand where it does.
const ILLEGAL: [(&[Step], u64); 11] = [
    // A tag that is live, and that is live again.
    (&[Insert(1, 10), Insert(2, 20), Insert(1, 30)], 2),
    (&[Insert(1, 10), Delete(1), Insert(1, 10), Insert(1, 10)], 3),
    // A tag that is not.
    (&[Delete(1)], 0),
    (&[Insert(1, 10), Delete(1), Delete(1)], 2),
    (&[Insert(1, 10), Replace(2, 20), Insert(1, 10)], 1),
    // Nothing to merge, at first and once all was merged.
    (&[Begin], 0),
    (&[Insert(1, 10), Begin, End(3), Begin], 3),
    // A merge is open.
    (&[Insert(1, 10), Begin, Insert(2, 20), Begin], 3),
    // None is.
    (&[Insert(1, 10), End(1)], 1),
    // Of another number.
    (&[Insert(1, 10), Begin, End(5)], 2),
    (&[Insert(1, 10), Begin, End(2)], 2),
];

// The first of these that is told otherwise.
fn wrong_list(alloc: Global) -> Result<Option<usize>, Fail> {
    for (row, &(steps, entry)) in ILLEGAL.iter().enumerate() {
        let bytes = log(alloc, &LINE, steps)?;
        let bad = Err(RecoverWhy::BadLog { entry });
        if !tells(alloc, &bytes, bad, (bytes.len(), 0))? {
            return Ok(Some(row));
        }
    }
    Ok(None)
}

#[test]
fn an_entry_that_may_not_stand_there(rt: HostRuntime) -> Result<(), Fail> {
    assert_eq!(rt; wrong_list(rt.alloc())?, None);
    Ok(())
}
