// The bytes of logs, and how files with these bytes are answered.
use ann_disk::MemoryFile;
use ann_log::{Files, Log, OpenRefused, OpenWhy, inspect_log};
use std::alloc::{AllocError, Global};

// The fields of version 2 before the codebook: d 2, R 2, l_build 4, alpha 1/1, w 1, m 2, freeze_at 100, generation 1, and
// the empty base.
pub const FRONT_TWO: [u8; 61] = [
    1, 65, 78, 78, 76, 79, 71, 48, 50, 2, 0, 2, 0, 4, 0, 1, 0, 1, 0, 1, 0, 2, 0, 0, 0, 100, 0, 0,
    0, 1, 0, 0, 0, 0, 0, 0, 0, 0, 0, 0, 0, 0, 0, 0, 0, 0, 0, 0, 0, 0, 0, 0, 0, 0, 0, 0, 0, 0, 0, 0,
    0,
];

// Those of version 1.
pub const FRONT_ONE: [u8; 29] = [
    1, 65, 78, 78, 76, 79, 71, 48, 49, 2, 0, 2, 0, 4, 0, 1, 0, 1, 0, 1, 0, 2, 0, 0, 0, 100, 0, 0, 0,
];

// An open gate, the frame with an Insert by 0 of tag 7 at (3, 4), and a gate 0x00.
pub const FRAME: [u8; 21] = [
    1, 15, 0, 0, 0, 1, 0, 0, 0, 0, 7, 0, 0, 0, 0, 0, 0, 0, 3, 4, 0,
];

// These fields, the codebook of two parts with the centroids 0 to 255, and these bytes from the first gate on.
pub fn text(alloc: Global, front: &[u8], frames: &[u8]) -> Result<Vec<u8>, AllocError> {
    let mut bytes = front.to_vec(alloc)?;
    bytes.extend_from_slice(b"ANNPQ001\x02\0\x02\0")?;
    for _part in 0..2 {
        for i in 0..=255u8 {
            bytes.push(i)?;
        }
    }
    bytes.extend_from_slice(frames)?;
    Ok(bytes)
}

// These bytes with another one at a place.
pub fn changed(alloc: Global, bytes: &[u8], place: usize, byte: u8) -> Result<Vec<u8>, AllocError> {
    let mut bytes = bytes.to_vec(alloc)?;
    if let Some(old) = bytes.get_mut(place) {
        *old = byte;
    }
    Ok(bytes)
}

// The fields of version 2 with the base behind the Begin at position 9, of segment 19 and next Pid 7.
pub fn based() -> [u8; 61] {
    let mut front = FRONT_TWO;
    front[37] = 11;
    front[45] = 19;
    front[53] = 7;
    front
}

// Two files with these bytes.
pub fn files(alloc: Global, first: &[u8], second: &[u8]) -> Result<Files<MemoryFile>, AllocError> {
    Ok(Files {
        first: MemoryFile::new(alloc, first, &[])?,
        second: MemoryFile::new(alloc, second, &[])?,
    })
}

// Two files, of which the second has no bytes. Of the calls of each, one may fail.
pub fn failing_files(
    alloc: Global,
    bytes: &[u8],
    first: u64,
    second: u64,
) -> Result<Files<MemoryFile>, AllocError> {
    Ok(Files {
        first: MemoryFile::new(alloc, bytes, &[first])?,
        second: MemoryFile::new(alloc, &[], &[second])?,
    })
}

// What a crash may leave of these files.
pub fn image(files: &Files<MemoryFile>, chooser: u64) -> Result<Files<MemoryFile>, AllocError> {
    Ok(Files {
        first: files.first.images(chooser)?,
        second: files.second.images(chooser)?,
    })
}

// How many entries are found, or why none are.
pub type Outcome = Result<usize, OpenWhy>;

// How many entries a log is opened with, or why it isn't, and its files.
pub fn opened(alloc: Global, files: Files<MemoryFile>) -> (Outcome, Files<MemoryFile>) {
    match Log::open(alloc, files) {
        Ok((log, entries)) => (Ok(entries.items().len()), log.into_files()),
        Err(OpenRefused { why, files }) => (Err(why), files),
    }
}

// How many entries are found without opening, or why none are.
pub fn inspected(alloc: Global, files: &mut Files<MemoryFile>) -> Outcome {
    let found = inspect_log(alloc, files)?;
    Ok(found.entries.items().len())
}

// Whether these are the bytes of two files.
pub fn have(files: &Files<MemoryFile>, first: &[u8], second: &[u8]) -> bool {
    files.first.bytes() == first && files.second.bytes() == second
}

// These bytes without the last ones, so many.
pub fn without(bytes: &[u8], cut: usize) -> &[u8] {
    &bytes[..bytes.len().saturating_sub(cut)]
}

// Whether two files with these bytes are found to hold this when they are looked into, which leaves them as they were.
pub fn tell(
    alloc: Global,
    first: &[u8],
    second: &[u8],
    wanted: Outcome,
) -> Result<bool, AllocError> {
    let mut looked_into = files(alloc, first, second)?;
    let found = inspected(alloc, &mut looked_into);
    Ok(found == wanted && have(&looked_into, first, second))
}

// Whether they are found to hold this when they are opened, which cuts off the last bytes of the first file, so many.
pub fn open(
    alloc: Global,
    first: &[u8],
    second: &[u8],
    wanted: Outcome,
    cut: usize,
) -> Result<bool, AllocError> {
    let (found, left) = opened(alloc, files(alloc, first, second)?);
    Ok(found == wanted && have(&left, without(first, cut), second))
}

// Whether both calls find that they hold this.
pub fn answers(
    alloc: Global,
    first: &[u8],
    second: &[u8],
    wanted: Outcome,
    cut: usize,
) -> Result<bool, AllocError> {
    Ok(tell(alloc, first, second, wanted)? && open(alloc, first, second, wanted, cut)?)
}

// Whether each of twenty images of these files is opened with one of these outcomes.
pub fn images_have(
    alloc: Global,
    files: &Files<MemoryFile>,
    one: Outcome,
    other: Outcome,
) -> Result<bool, AllocError> {
    for chooser in 0..20 {
        let (found, _files) = opened(alloc, image(files, chooser)?);
        if found != one && found != other {
            return Ok(false);
        }
    }
    Ok(true)
}

// The generation of a log that is opened, and the position behind its last entry.
pub fn found_in(alloc: Global, files: Files<MemoryFile>) -> Option<(u64, u64)> {
    match Log::open(alloc, files) {
        Ok((log, _entries)) => Some((log.generation(), log.count())),
        Err(_) => None,
    }
}
