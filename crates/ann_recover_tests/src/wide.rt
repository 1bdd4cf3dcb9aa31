//! A base of 257 points, whose tags are read in two pieces.

use crate::check::looks;
use crate::store::{CALM, Told, reopened, stored};
use crate::texts::{BASED, log, put, text};
use ann_recover::RecoverWhy;
use std::alloc::{AllocError, Global};
use std::test::Fail;

// The header and the directory of segment 19 with 257 points, of which point i has the Pid i and lies at i modulo 256.
fn front(alloc: Global) -> Result<Vec<u8>, AllocError> {
    let mut bytes = text(
        alloc,
        &[(
            &[
                0x41, 0x4e, 0x4e, 0x53, 0x45, 0x47, 0x30, 0x31, 19, 0, 0, 0, 0, 0, 0, 0, 1, 0, 2,
                0, 1, 0, 0, 0, 1, 1,
            ],
            4096,
        )],
    )?;
    for pid in 0..257u16 {
        let [low, high] = pid.to_le_bytes();
        bytes.extend_from_slice(&[low, high, 0, 0, low])?;
    }
    bytes.resize(8192, 0)?;
    Ok(bytes)
}

// Puts the node block of a point without neighbours, whose tag is one more than its Pid, but for the last one.
fn put_node(bytes: &mut Vec<u8>, pid: u16, last: u16) -> Result<(), AllocError> {
    let [low, high] = pid.to_le_bytes();
    let tag = if pid == 256 {
        last
    } else {
        pid.wrapping_add(1)
    };
    let [first, second] = tag.to_le_bytes();
    bytes.extend_from_slice(&[
        low, high, 0, 0, 0, 0, 0, 0, first, second, 0, 0, 0, 0, 0, 0, low,
    ])?;
    bytes.resize(4096 * (usize::from(pid) + 3), 0)
}

// The segment of these points, of which the last has this tag.
fn wide(alloc: Global, last: u16) -> Result<Vec<u8>, AllocError> {
    let mut bytes = front(alloc)?;
    for pid in 0..257u16 {
        put_node(&mut bytes, pid, last)?;
    }
    Ok(bytes)
}

// The log of that base, without entries.
fn based(alloc: Global) -> Result<Vec<u8>, AllocError> {
    let mut log = log(alloc, &BASED, &[])?;
    put(&mut log, &[(53, 1), (54, 1)]);
    Ok(log)
}

// What is told of the base whose last point has this tag.
fn tells(alloc: Global, last: u16, wanted: Told) -> Result<bool, Fail> {
    let log = based(alloc)?;
    let bytes = wide(alloc, last)?;
    let sealed = [(19, bytes.as_slice())];
    let (told, _left) = reopened(alloc, stored(alloc, &log, &sealed, CALM)?)?;
    Ok(told == wanted && looks(alloc, &log, &sealed, wanted)?)
}

// The block of the last point.
const BAD: Told = Err(RecoverWhy::BadSegment { block: 258 });

#[test]
fn tags_that_repeat_over_two_pieces(rt: HostRuntime) -> Result<(), Fail> {
    let alloc = rt.alloc();
    let told = (
        tells(alloc, 1, BAD)?,
        tells(alloc, 256, BAD)?,
        tells(alloc, 257, Ok((11, 257, Some(19))))?,
    );
    assert_eq!(rt; told, (true, true, true));
    Ok(())
}

// The first call of the eye that may fail without a refusal.
fn reads(alloc: Global) -> Result<u64, Fail> {
    let log = based(alloc)?;
    let bytes = wide(alloc, 257)?;
    for call in 1..=100u64 {
        let store = stored(alloc, &log, &[(19, &bytes)], (0, 0, 0, call))?;
        let (told, _left) = reopened(alloc, store)?;
        if told != Err(RecoverWhy::Disk) {
            return Ok(call);
        }
    }
    Ok(0)
}

// The eye tells the length, reads the header and the directory, and then each piece at once.
#[test]
fn each_piece_is_one_read(rt: HostRuntime) -> Result<(), Fail> {
    assert_eq!(rt; reads(rt.alloc())?, 6);
    Ok(())
}
