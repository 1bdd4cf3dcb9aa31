//! The bytes of logs and segments of the line index, which the tests share: d 1, R 2, l_build 10, alpha 1, w 1, m 1 and
//! freeze_at 100, where the code of a vector is its component.

use std::alloc::{AllocError, Global};

/// The fields of version 2 before the codebook, with the empty base.
pub(crate) const LINE: [u8; 61] = [
    1, 65, 78, 78, 76, 79, 71, 48, 50, 1, 0, 2, 0, 10, 0, 1, 0, 1, 0, 1, 0, 1, 0, 0, 0, 100, 0, 0,
    0, 1, 0, 0, 0, 0, 0, 0, 0, 0, 0, 0, 0, 0, 0, 0, 0, 0, 0, 0, 0, 0, 0, 0, 0, 0, 0, 0, 0, 0, 0, 0,
    0,
];

/// The same with the base behind the Begin at position 9: segment 19 and the next Pid 5.
pub(crate) const BASED: [u8; 61] = [
    1, 65, 78, 78, 76, 79, 71, 48, 50, 1, 0, 2, 0, 10, 0, 1, 0, 1, 0, 1, 0, 1, 0, 0, 0, 100, 0, 0,
    0, 1, 0, 0, 0, 0, 0, 0, 0, 11, 0, 0, 0, 0, 0, 0, 0, 19, 0, 0, 0, 0, 0, 0, 0, 5, 0, 0, 0, 0, 0,
    0, 0,
];

/// An entry by client 0, with its tag and component, or the number of its segment.
#[derive(Clone, Copy)]
pub(crate) enum Step {
    Insert(u8, u8),
    Delete(u8),
    Begin,
    End(u8),
    Replace(u8, u8),
}

// Puts an open gate and a frame with one entry.
fn put_step(text: &mut Vec<u8>, step: Step) -> Result<(), AllocError> {
    match step {
        Step::Insert(tag, x) => text.extend_from_slice(&[
            1, 14, 0, 0, 0, 1, 0, 0, 0, 0, tag, 0, 0, 0, 0, 0, 0, 0, x,
        ]),
        Step::Delete(tag) => text.extend_from_slice(&[
            1, 13, 0, 0, 0, 2, 0, 0, 0, 0, tag, 0, 0, 0, 0, 0, 0, 0,
        ]),
        Step::Begin => text.extend_from_slice(&[1, 5, 0, 0, 0, 3, 0, 0, 0, 0]),
        Step::End(segment) => text.extend_from_slice(&[
            1, 13, 0, 0, 0, 4, 0, 0, 0, 0, segment, 0, 0, 0, 0, 0, 0, 0,
        ]),
        Step::Replace(tag, x) => text.extend_from_slice(&[
            1, 14, 0, 0, 0, 5, 0, 0, 0, 0, tag, 0, 0, 0, 0, 0, 0, 0, x,
        ]),
    }
}

// These fields and the codebook, of which centroid i is i.
fn preamble(alloc: Global, front: &[u8]) -> Result<Vec<u8>, AllocError> {
    let mut text = front.to_vec(alloc)?;
    text.extend_from_slice(b"ANNPQ001\x01\0\x01\0")?;
    for i in 0..=255u8 {
        text.push(i)?;
    }
    Ok(text)
}

/// A log with these fields before the codebook, with a frame for each entry, and a last gate that is closed.
pub(crate) fn log(alloc: Global, front: &[u8], steps: &[Step]) -> Result<Vec<u8>, AllocError> {
    let mut text = preamble(alloc, front)?;
    for step in steps {
        put_step(&mut text, *step)?;
    }
    text.push(0)?;
    Ok(text)
}

/// With what a block begins, before zeros, and where it ends.
pub(crate) type Block = (&'static [u8], usize);

/// The blocks of segment 19: Pids 2, 3 and 4 with the tags 3, 4 and 5 at 30, 40 and 50, in a line; the entry is the second.
pub(crate) const NINETEEN: &[Block] = &[
    (
        &[
            0x41, 0x4e, 0x4e, 0x53, 0x45, 0x47, 0x30, 0x31, 19, 0, 0, 0, 0, 0, 0, 0, 1, 0, 2, 0, 1,
            0, 0, 0, 3, 0, 0, 0, 1,
        ],
        4096,
    ),
    (&[2, 0, 0, 0, 30, 3, 0, 0, 0, 40, 4, 0, 0, 0, 50], 8192),
    (
        &[
            2, 0, 0, 0, 1, 0, 0, 0, 3, 0, 0, 0, 0, 0, 0, 0, 30, 1, 0, 0, 0,
        ],
        12288,
    ),
    (
        &[
            3, 0, 0, 0, 2, 0, 0, 0, 4, 0, 0, 0, 0, 0, 0, 0, 40, 0, 0, 0, 0, 2, 0, 0, 0,
        ],
        16384,
    ),
    (
        &[
            4, 0, 0, 0, 1, 0, 0, 0, 5, 0, 0, 0, 0, 0, 0, 0, 50, 1, 0, 0, 0,
        ],
        20480,
    ),
];

/// Those of segment 25: the same points, and behind them Pid 5 with the tag 6 at 60. The entry is the second, by the tie.
pub(crate) const TWENTY_FIVE: &[Block] = &[
    (
        &[
            0x41, 0x4e, 0x4e, 0x53, 0x45, 0x47, 0x30, 0x31, 25, 0, 0, 0, 0, 0, 0, 0, 1, 0, 2, 0, 1,
            0, 0, 0, 4, 0, 0, 0, 1,
        ],
        4096,
    ),
    (
        &[
            2, 0, 0, 0, 30, 3, 0, 0, 0, 40, 4, 0, 0, 0, 50, 5, 0, 0, 0, 60,
        ],
        8192,
    ),
    (
        &[
            2, 0, 0, 0, 1, 0, 0, 0, 3, 0, 0, 0, 0, 0, 0, 0, 30, 1, 0, 0, 0,
        ],
        12288,
    ),
    (
        &[
            3, 0, 0, 0, 2, 0, 0, 0, 4, 0, 0, 0, 0, 0, 0, 0, 40, 0, 0, 0, 0, 2, 0, 0, 0,
        ],
        16384,
    ),
    (
        &[
            4, 0, 0, 0, 2, 0, 0, 0, 5, 0, 0, 0, 0, 0, 0, 0, 50, 1, 0, 0, 0, 3, 0, 0, 0,
        ],
        20480,
    ),
    (
        &[
            5, 0, 0, 0, 1, 0, 0, 0, 6, 0, 0, 0, 0, 0, 0, 0, 60, 2, 0, 0, 0,
        ],
        24576,
    ),
];

/// The bytes of blocks.
pub(crate) fn text(alloc: Global, blocks: &[Block]) -> Result<Vec<u8>, AllocError> {
    let mut bytes = Vec::new(alloc);
    for (front, end) in blocks {
        bytes.extend_from_slice(front)?;
        bytes.resize(*end, 0)?;
    }
    Ok(bytes)
}

/// Writes bytes at their places, where these are there.
pub(crate) fn put(bytes: &mut [u8], places: &[(usize, u8)]) {
    for (at, byte) in places {
        if let Some(place) = bytes.get_mut(*at) {
            *place = *byte;
        }
    }
}
