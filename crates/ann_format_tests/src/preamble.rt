use ann_preamble::{Base, Preamble, Side, choose, size, write};
use ann_types::Params;
use std::alloc::{AllocError, Global};
use std::test::Fail;

// The fields of version 2 before the codebook: d 2, R 2, l_build 4, alpha 1/1, w 1, m 2, freeze_at 100, generation 3, and
// the base behind the Begin at position 9, with segment 19 and next Pid 7.
const FRONT_TWO: [u8; 61] = [
    1, 65, 78, 78, 76, 79, 71, 48, 50, 2, 0, 2, 0, 4, 0, 1, 0, 1, 0, 1, 0, 2, 0, 0, 0, 100, 0, 0,
    0, 3, 0, 0, 0, 0, 0, 0, 0, 11, 0, 0, 0, 0, 0, 0, 0, 19, 0, 0, 0, 0, 0, 0, 0, 7, 0, 0, 0, 0, 0,
    0, 0,
];

// Those of version 1.
const FRONT_ONE: [u8; 29] = [
    1, 65, 78, 78, 76, 79, 71, 48, 49, 2, 0, 2, 0, 4, 0, 1, 0, 1, 0, 1, 0, 2, 0, 0, 0, 100, 0, 0, 0,
];

const BASE: Base = Base {
    position: 11,
    next: 7,
    segment: 19,
};

// These bytes, the codebook of two parts with the centroids 0 to 255, and a gate.
fn file(alloc: Global, front: &[u8]) -> Result<Vec<u8>, AllocError> {
    let mut bytes = front.to_vec(alloc)?;
    bytes.extend_from_slice(b"ANNPQ001\x02\0\x02\0")?;
    for _part in 0..2 {
        for i in 0..=255u8 {
            bytes.push(i)?;
        }
    }
    bytes.push(0x7f)?;
    Ok(bytes)
}

// The generation and the first gate's place of the file with this front that ends at a place and has another byte at one.
fn read(
    alloc: Global,
    front: &[u8],
    end: usize,
    at: usize,
    byte: u8,
) -> Result<Option<(u64, u64)>, AllocError> {
    let mut bytes = file(alloc, front)?;
    bytes.resize(end, 0)?;
    if at < bytes.len() {
        bytes[at] = byte;
    }
    let found = Preamble::read(alloc, &bytes)?;
    Ok(found.map(|preamble| (preamble.generation, preamble.gate())))
}

// Where a file ends, which of its bytes is another, and whether it still has a preamble.
const CASES: [(usize, usize, u8, bool); 22] = [
    (586, 586, 0, true),
    (607, 585, 1, true),
    (585, 585, 0, false),
    (60, 60, 0, false),
    (0, 0, 0, false),
    (586, 0, 0, false),
    (586, 0, 0x7f, false),
    (586, 8, 51, false),
    (586, 9, 3, false),
    (586, 11, 1, false),
    (586, 14, 4, false),
    (586, 17, 2, false),
    (586, 21, 3, false),
    (586, 23, 1, false),
    (586, 27, 2, false),
    (586, 29, 0, false),
    (586, 37, 12, false),
    (586, 45, 20, false),
    (586, 57, 1, false),
    (586, 61, 66, false),
    (586, 71, 1, false),
    (586, 584, 1, true),
];

// The first case that is read otherwise.
fn wrong_case(alloc: Global) -> Result<Option<(usize, usize)>, AllocError> {
    for (end, at, byte, there) in CASES {
        let wanted = if there { Some((3, 585)) } else { None };
        if read(alloc, &FRONT_TWO, end, at, byte)? != wanted {
            return Ok(Some((end, at)));
        }
    }
    Ok(None)
}

#[test]
fn files_with_a_changed_byte(rt: HostRuntime) -> Result<(), Fail> {
    assert_eq!(rt; wrong_case(rt.alloc())?, None);
    let whole = read(rt.alloc(), &FRONT_ONE, 554, 554, 0)?;
    let cut = read(rt.alloc(), &FRONT_ONE, 553, 553, 0)?;
    assert_eq!(rt; (whole, cut), (Some((0, 553)), None));
    Ok(())
}

// The file before it is made: its made byte and its first gate are 0, and one more byte is behind.
fn unmade(alloc: Global) -> Result<Vec<u8>, AllocError> {
    let mut bytes = file(alloc, &FRONT_TWO)?;
    for place in [0, 585] {
        if let Some(byte) = bytes.get_mut(place) {
            *byte = 0;
        }
    }
    bytes.push(9)?;
    Ok(bytes)
}

// Whether a file has the parameters and the base, and its preamble is written so behind which one byte stays.
fn is_written_again(
    alloc: Global,
    params: &Params,
    file: &[u8],
    wanted: &[u8],
) -> Result<bool, AllocError> {
    let Some(found) = Preamble::read(alloc, file)? else {
        return Ok(false);
    };
    let mut bytes = Vec::new(alloc);
    bytes.resize(size(found.params.d) + 1, 9)?;
    write(&found.params, found.book.bytes(), &BASE, 3, &mut bytes);
    let told = found.params == *params && found.base == BASE;
    let chosen = choose(&None, &Some(found)) == Some(Side::Second);
    Ok(told && chosen && bytes.as_slice() == wanted)
}

#[test]
fn a_written_preamble_is_the_format(rt: HostRuntime) -> Result<(), Fail> {
    let params = Params::new(2, 2, 4, 1, 1, 1, 2, 100).ok_or("limits")?;
    let whole = file(rt.alloc(), &FRONT_TWO)?;
    let wanted = unmade(rt.alloc())?;
    assert!(rt;
        is_written_again(rt.alloc(), &params, &whole, &wanted)? && choose(&None, &None).is_none()
    );
    Ok(())
}
