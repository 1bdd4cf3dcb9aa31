use ann_bytes::{Short, get_u16, get_u32, get_u64, put_u16, put_u32, put_u64};

// Ten bytes, and the numbers that stand in them.
const BYTES: [u8; 10] = [0x01, 0x0f, 0x00, 0x00, 0x80, 0xff, 0xfe, 0x00, 0x00, 0x7f];

// The first place of a number of two bytes that is told otherwise.
fn wrong_u16() -> Option<usize> {
    for (at, wanted) in [
        (0, Ok(0x0f01)),
        (4, Ok(0xff80)),
        (8, Ok(0x7f00)),
        (9, Err(Short)),
        (10, Err(Short)),
        (usize::MAX, Err(Short)),
    ] {
        if get_u16(&BYTES, at) != wanted {
            return Some(at);
        }
    }
    None
}

// That of one of four bytes.
fn wrong_u32() -> Option<usize> {
    for (at, wanted) in [
        (0, Ok(0x0000_0f01)),
        (4, Ok(0x00fe_ff80)),
        (6, Ok(0x7f00_00fe)),
        (7, Err(Short)),
        (usize::MAX, Err(Short)),
    ] {
        if get_u32(&BYTES, at) != wanted {
            return Some(at);
        }
    }
    None
}

// That of one of eight bytes.
fn wrong_u64() -> Option<usize> {
    for (at, wanted) in [
        (0, Ok(0x00fe_ff80_0000_0f01)),
        (2, Ok(0x7f00_00fe_ff80_0000)),
        (3, Err(Short)),
        (usize::MAX, Err(Short)),
    ] {
        if get_u64(&BYTES, at) != wanted {
            return Some(at);
        }
    }
    None
}

#[test]
fn fields_are_little_endian(rt: HostRuntime) {
    assert_eq!(rt; (wrong_u16(), wrong_u32(), wrong_u64()), (None, None, None));
}

#[test]
fn a_put_leaves_the_other_bytes(rt: HostRuntime) {
    let mut bytes = [9; 15];
    put_u16(&mut bytes, 0, 0x1234);
    put_u32(&mut bytes, 3, 0x89ab_cdef);
    put_u64(&mut bytes, 7, 7);
    let wanted = [
        0x34, 0x12, 9, 0xef, 0xcd, 0xab, 0x89, 7, 0, 0, 0, 0, 0, 0, 0,
    ];
    assert!(rt; bytes == wanted);
}
