ghost use Rattle.std.specs.Prelude.{◌≡◌, None};
ghost use Rattle.std.specs.FinMap as map;
ghost use Rattle.ann_vault.specs.Memory.{memory_held};

use crate::points::{codebook, opened, params, put};
use ann_block::{Header, write_node};
use ann_pq::Codebook;
use ann_segment::{Directory, Segment, SegmentRefused, SegmentWriter, VerifyRefused};
use ann_types::Params;
use ann_vault::{MemoryEye, MemorySeal, MemoryVault, Vault};
use std::alloc::{AllocError, Global};
use std::test::Fail;

// The segment 13 with d 1, R 2 and m 1, where the code of a vector is its component: Pid 0 with tag 1 at 10, the entry,
// and Pid 2 with tag 3 at 30, each the other's neighbour. With what each of its blocks begins, before zeros, and where
// it ends.
const BLOCKS: [(&[u8], usize); 4] = [
    (
        &[
            0x41, 0x4e, 0x4e, 0x53, 0x45, 0x47, 0x30, 0x31, 13, 0, 0, 0, 0, 0, 0, 0, 1, 0, 2, 0, 1,
            0, 0, 0, 2, 0, 0, 0, 0, 0, 0, 0,
        ],
        4096,
    ),
    (&[0, 0, 0, 0, 10, 2, 0, 0, 0, 30], 8192),
    (
        &[
            0, 0, 0, 0, 1, 0, 0, 0, 1, 0, 0, 0, 0, 0, 0, 0, 10, 1, 0, 0, 0,
        ],
        12288,
    ),
    (
        &[
            2, 0, 0, 0, 1, 0, 0, 0, 3, 0, 0, 0, 0, 0, 0, 0, 30, 0, 0, 0, 0,
        ],
        16384,
    ),
];

// Its bytes.
fn text(alloc: Global) -> Result<Vec<u8>, AllocError> {
    let mut bytes = Vec::new(alloc);
    for (front, end) in BLOCKS {
        bytes.extend_from_slice(front)?;
        bytes.resize(end, 0)?;
    }
    Ok(bytes)
}

// Writes it into a vault.
fn write_into(alloc: Global, vault: &mut MemoryVault) -> Result<Segment<MemorySeal>, SegmentRefused>
    requires { map.get (memory_held vault.old) 13 ≡ None }
{
    let header = Header {
        number: 13,
        d: 1,
        r: 2,
        m: 1,
        count: 2,
        start_row: Some(0),
    };
    let mut directory = Directory::new(alloc);
    directory.push(0, &[10])?;
    directory.push(2, &[30])?;
    let mut writer = SegmentWriter::start(vault, header, directory)?;
    let mut block = [0; 4096];
    write_node(0, 1, &[10], &[1], &mut block);
    writer.node(vault, &block)?;
    write_node(2, 3, &[30], &[0], &mut block);
    writer.node(vault, &block)?;
    writer.finish(vault)
}

// Writes it into a vault whose calls with these numbers fail.
fn written(alloc: Global, failing: &[u64]) -> Result<Segment<MemorySeal>, SegmentRefused> {
    let mut vault = MemoryVault::new(alloc, failing)?;
    write_into(alloc, &mut vault)
}

// Puts the node blocks of a segment that aren't verified into a list.
fn verify_all(
    segment: &Segment<MemorySeal>,
    book: &Codebook,
    params: &Params,
    eye: &mut MemoryEye,
    blocks: &mut Vec<u64>,
) -> Result<(), Fail> {
    let mut page = [0; 4096];
    for row in 0..segment.count() {
        match segment.verify(row, book, params, eye, &mut page) {
            Ok(()) => {}
            Err(VerifyRefused::BadSegment { block }) => blocks.push(block)?,
            Err(why) => return Err(why.into()),
        }
    }
    Ok(())
}

// Which node blocks of a segment aren't verified.
fn unverified(
    alloc: Global,
    segment: &Segment<MemorySeal>,
    eye: &mut MemoryEye,
) -> Result<Vec<u64>, Fail> {
    let book = codebook(alloc, 0xFF)?;
    let mut blocks = Vec::new(alloc);
    verify_all(segment, &book, &params(100)?, eye, &mut blocks)?;
    Ok(blocks)
}

// Which blocks of a segment of these bytes are refused: the one for which it isn't opened under the number, or those
// that aren't verified.
fn refused(alloc: Global, number: u64, bytes: &[u8]) -> Result<Vec<u64>, Fail> {
    let mut eye = MemoryEye::new(alloc, &[])?;
    match opened(alloc, number, bytes, &params(100)?, &mut eye)? {
        Ok(segment) => unverified(alloc, &segment, &mut eye),
        Err(SegmentRefused::BadSegment { block }) => Ok(vec![in alloc; block]?),
        Err(why) => Err(why.into()),
    }
}

// Whether these blocks of them are refused.
fn are_refused(alloc: Global, number: u64, bytes: &[u8], wanted: &[u64]) -> Result<bool, Fail> {
    let blocks = refused(alloc, number, bytes)?;
    Ok(blocks.as_slice() == wanted)
}

// Whether a segment has the rows, the entry and the number of the one that was written.
fn is_written(segment: &Segment<MemorySeal>) -> bool {
    segment.count() == 2
        && (segment.number(), segment.entry()) == (13, Some(0))
        && (segment.pid(1), segment.node_block(1)) == (2, 3)
        && segment.code(1) == [30].as_slice()
}

#[test]
fn a_segment_is_written(rt: HostRuntime) -> Result<(), Fail> {
    let segment = written(rt.alloc(), &[])?;
    let rows = is_written(&segment);
    let seal = segment.into_seal();
    let wanted = text(rt.alloc())?;
    assert!(rt; rows && seal.bytes() == wanted.as_slice());
    Ok(())
}

// Whether a vault holds these bytes under the number 12, and nothing else.
fn holds_alone(alloc: Global, vault: &mut MemoryVault, bytes: &[u8]) -> Result<bool, Fail> {
    let mut numbers = Vec::new(alloc);
    vault.numbers(&mut numbers)?;
    let held = vault.open(12)?.ok_or("no seal")?;
    Ok(numbers.as_slice() == [12].as_slice() && held.bytes() == bytes)
}

// Why the segment isn't written where this call of the vault fails. The vault then holds what it held.
fn writing_refused(alloc: Global, call: u64) -> Result<Option<SegmentRefused>, Fail> {
    let mut vault = MemoryVault::new(alloc, &[call])?;
    vault.preset(12, b"ab")?;
    let refused = write_into(alloc, &mut vault).err();
    if !holds_alone(alloc, &mut vault, b"ab")? {
        return Err("a refusal left another vault".into());
    }
    Ok(refused)
}

// The draft is begun, the front is written in three calls and the nodes in two, and the draft is sealed: the first of these
// calls whose failure isn't told.
fn wrong_write(alloc: Global) -> Result<Option<u64>, Fail> {
    for call in 1..=7 {
        if writing_refused(alloc, call)? != Some(SegmentRefused::Disk) {
            return Ok(Some(call));
        }
    }
    Ok(None)
}

#[test]
fn a_call_of_the_vault_fails(rt: HostRuntime) -> Result<(), Fail> {
    assert_eq!(rt; wrong_write(rt.alloc())?, None);
    assert_eq!(rt; written(rt.alloc(), &[8])?.count(), 2);
    Ok(())
}

// Why a segment isn't opened where this call of the eye fails.
fn opening_refused(alloc: Global, bytes: &[u8], call: u64) -> Result<Option<SegmentRefused>, Fail> {
    let mut eye = MemoryEye::new(alloc, &[call])?;
    Ok(opened(alloc, 13, bytes, &params(100)?, &mut eye)?.err())
}

// The length, the header and the directory are read: the first of these calls whose failure isn't told.
fn wrong_read(alloc: Global) -> Result<Option<u64>, Fail> {
    let bytes = text(alloc)?;
    for call in 1..=3 {
        if opening_refused(alloc, &bytes, call)? != Some(SegmentRefused::Disk) {
            return Ok(Some(call));
        }
    }
    Ok(None)
}

#[test]
fn a_call_of_the_eye_fails(rt: HostRuntime) -> Result<(), Fail> {
    assert_eq!(rt; wrong_read(rt.alloc())?, None);
    Ok(())
}

/// Which byte is changed, its new value, and the blocks that are refused.
const CHANGES: [(usize, u8, &[u64]); 53] = [
    // The header: magic, number, d, R, m, two zeros, count, entry, and the bytes behind.
    (0, 0x41, &[]),
    (0, 0x61, &[0]),
    (7, 0x32, &[0]),
    (8, 14, &[0]),
    (15, 1, &[0]),
    (16, 2, &[0]),
    (17, 1, &[0]),
    (18, 3, &[0]),
    (19, 1, &[0]),
    (20, 0, &[0]),
    (21, 1, &[0]),
    (22, 1, &[0]),
    (23, 1, &[0]),
    (24, 1, &[0]),
    (24, 3, &[0]),
    (27, 1, &[0]),
    (28, 1, &[]),
    (28, 2, &[0]),
    (31, 1, &[0]),
    (32, 1, &[0]),
    (4095, 1, &[0]),
    // The directory: Pids that don't rise, Pids and codes that aren't the nodes', and the bytes behind.
    (4096, 2, &[1]),
    (4096, 3, &[1]),
    (4101, 0, &[1]),
    (4096, 1, &[2]),
    (4104, 1, &[3]),
    (4100, 11, &[2]),
    (4105, 29, &[3]),
    (4106, 1, &[1]),
    (8191, 1, &[1]),
    // The first node: Pid, degree, two zeros, tag, vector, neighbour, and the bytes behind.
    (8192, 2, &[2]),
    (8195, 1, &[2]),
    (8196, 0, &[2]),
    (8196, 2, &[2]),
    (8196, 3, &[2]),
    (8197, 1, &[2]),
    (8198, 1, &[2]),
    (8199, 1, &[2]),
    (8207, 1, &[]),
    (8208, 11, &[2]),
    (8209, 0, &[2]),
    (8209, 2, &[2]),
    (8213, 1, &[2]),
    (12287, 1, &[2]),
    // The second. Without its degree it has no neighbour, and zeros alone are behind.
    (12288, 0, &[3]),
    (12292, 0, &[]),
    (12292, 3, &[3]),
    (12294, 1, &[3]),
    (12304, 31, &[3]),
    (12305, 1, &[3]),
    (12305, 2, &[3]),
    (12309, 1, &[3]),
    (16383, 1, &[3]),
];

// Whether these blocks are refused with one byte changed.
fn is_refused_at(alloc: Global, at: usize, byte: u8, wanted: &[u64]) -> Result<bool, Fail> {
    let mut bytes = text(alloc)?;
    put(&mut bytes, &[(at, byte)]);
    are_refused(alloc, 13, &bytes, wanted)
}

// The first change for which other blocks are refused.
fn wrong_change(alloc: Global) -> Result<Option<(usize, u8)>, Fail> {
    for (at, byte, wanted) in CHANGES.iter() {
        if !is_refused_at(alloc, *at, *byte, wanted)? {
            return Ok(Some((*at, *byte)));
        }
    }
    Ok(None)
}

#[test]
fn segments_with_a_changed_byte(rt: HostRuntime) -> Result<(), Fail> {
    assert_eq!(rt; wrong_change(rt.alloc())?, None);
    Ok(())
}

/// A length, a number, and the blocks that are refused.
const LENGTHS: [(usize, u64, &[u64]); 10] = [
    (16384, 13, &[]),
    (16384, 14, &[0]),
    (0, 13, &[0]),
    (4095, 13, &[0]),
    (4096, 13, &[0]),
    (8192, 13, &[0]),
    (12288, 13, &[0]),
    (16383, 13, &[0]),
    (16385, 13, &[0]),
    (20480, 13, &[0]),
];

// Whether these blocks are refused at a length.
fn is_refused_of(alloc: Global, length: usize, number: u64, wanted: &[u64]) -> Result<bool, Fail> {
    let mut bytes = text(alloc)?;
    bytes.resize(length, 0)?;
    are_refused(alloc, number, &bytes, wanted)
}

// The first length or number for which other blocks are refused.
fn wrong_length(alloc: Global) -> Result<Option<(usize, u64)>, Fail> {
    for (length, number, wanted) in LENGTHS {
        if !is_refused_of(alloc, length, number, wanted)? {
            return Ok(Some((length, number)));
        }
    }
    Ok(None)
}

#[test]
fn segments_of_another_length_or_number(rt: HostRuntime) -> Result<(), Fail> {
    assert_eq!(rt; wrong_length(rt.alloc())?, None);
    Ok(())
}
