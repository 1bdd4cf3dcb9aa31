use ann_block::BlockRefused::{Degree, Length, Magic, Number, Order, Padding, Shape};
use ann_block::{BlockRefused, Header, read_header, read_node, write_header, write_node};
use ann_types::Params;
use std::test::Fail;

// The header of the segment 13 of two points, and the block of the second one: Pid 2 in row 1, linked to row 0.
const HEADER: Header = Header {
    number: 13,
    d: 1,
    r: 2,
    m: 1,
    count: 2,
    start_row: Some(0),
};

const HEADER_FRONT: [u8; 32] = [
    0x41, 0x4e, 0x4e, 0x53, 0x45, 0x47, 0x30, 0x31, 0x0d, 0, 0, 0, 0, 0, 0, 0, 1, 0, 2, 0, 1, 0, 0,
    0, 2, 0, 0, 0, 0, 0, 0, 0,
];

const NODE_FRONT: [u8; 21] = [
    2, 0, 0, 0, 1, 0, 0, 0, 3, 0, 0, 0, 0, 0, 0, 0, 0x1e, 0, 0, 0, 0,
];

// A block that begins with these bytes, then zeros.
fn block_of(front: &[u8]) -> [u8; 4096] {
    let mut block = [0; 4096];
    for (place, byte) in block.iter_mut().zip(front) {
        *place = *byte;
    }
    block
}

// A block with two of its bytes changed.
fn changed(mut block: [u8; 4096], first: (usize, u8), second: (usize, u8)) -> [u8; 4096] {
    for (at, byte) in [first, second] {
        if let Some(place) = block.get_mut(at) {
            *place = byte;
        }
    }
    block
}

// Why the block of the second point is refused with two of its bytes changed.
fn node_refused(params: &Params, first: (usize, u8), second: (usize, u8)) -> Option<BlockRefused> {
    let block = changed(block_of(&NODE_FRONT), first, second);
    read_node(&block, 2, 1, 2, params).err()
}

#[test]
fn blocks_are_written_as_in_the_format(rt: HostRuntime) {
    let mut block = [9; 4096];
    write_header(&HEADER, &mut block);
    let header = block == block_of(&HEADER_FRONT);
    write_node(2, 3, &[0x1e], &[0], &mut block);
    assert!(rt; header && block == block_of(&NODE_FRONT));
}

// The first pair of changed bytes of a header for which it is refused otherwise.
fn wrong_header() -> Option<((usize, u8), (usize, u8))> {
    let ok = (31, 0);
    for (first, second, wanted) in [
        ((0, 0x61), ok, Magic),
        ((7, 0x32), (16, 0), Magic),
        ((16, 0), ok, Shape),
        ((17, 4), ok, Shape),
        ((18, 1), ok, Shape),
        ((18, 129), ok, Shape),
        ((20, 0), ok, Shape),
        ((20, 2), ok, Shape),
        ((20, 65), (16, 65), Shape),
        ((22, 1), ok, Shape),
        ((23, 1), ok, Shape),
        ((24, 0), ok, Shape),
        ((28, 2), (32, 1), Shape),
        ((32, 1), ok, Padding),
        ((4095, 1), ok, Padding),
    ] {
        let block = changed(block_of(&HEADER_FRONT), first, second);
        if read_header(&block) != Err(wanted) {
            return Some((first, second));
        }
    }
    None
}

#[test]
fn headers_with_changed_bytes(rt: HostRuntime) {
    assert_eq!(rt; wrong_header(), None);
    let whole = read_header(&block_of(&HEADER_FRONT));
    assert!(rt; whole == Ok(HEADER) && read_header(&[0; 4095]) == Err(Length));
}

// The first pair of changed bytes of a node for which it is refused otherwise.
fn wrong_node(params: &Params) -> Option<((usize, u8), (usize, u8))> {
    let ok = (31, 0);
    for (first, second, wanted) in [
        (ok, ok, None),
        ((4, 0), ok, None),
        ((0, 3), (4, 3), Some(Number)),
        ((4, 3), (17, 1), Some(Degree)),
        ((17, 1), (4, 2), Some(Number)),
        ((17, 2), ok, Some(Number)),
        ((4, 2), (6, 1), Some(Order)),
        ((6, 1), ok, Some(Padding)),
        ((21, 1), ok, Some(Padding)),
        ((4095, 1), ok, Some(Padding)),
    ] {
        if node_refused(params, first, second) != wanted {
            return Some((first, second));
        }
    }
    None
}

// The parameters of an index of one component, with R of two and a code of one byte.
fn params() -> Result<Params, Fail> {
    Ok(Params::new(1, 2, 10, 12, 10, 1, 1, 100).ok_or("limits")?)
}

#[test]
fn nodes_with_changed_bytes(rt: HostRuntime) -> Result<(), Fail> {
    assert_eq!(rt; wrong_node(&params()?), None);
    Ok(())
}

#[test]
fn a_node_is_read_again(rt: HostRuntime) -> Result<(), Fail> {
    let params = params()?;
    let mut block = [9; 4096];
    write_node(7, u64::MAX, &[255], &[0, 70_000], &mut block);
    let refused = read_node(&[0; 4097], 7, 300, 70_001, &params).err();
    let node = read_node(&block, 7, 300, 70_001, &params)?;
    let front = node.tag() == u64::MAX && node.vector() == [255].as_slice();
    assert!(rt; refused == Some(Length) && front && node.degree() == 2);
    assert_eq!(rt; (node.neighbour(0), node.neighbour(1)), (0, 70_000));
    Ok(())
}
