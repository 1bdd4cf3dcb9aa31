//! Segments of which a byte is another, and bases whose tags repeat.

use crate::check::looks;
use crate::places::{MERGED, MERGED_TOLD};
use crate::store::{CALM, Sealed, Told, reopened, stored};
use crate::texts::{BASED, LINE, NINETEEN, Step, log, put, text};
use ann_recover::RecoverWhy;
use ann_vault::{MemoryVault, Vault};
use std::alloc::Global;
use std::test::Fail;

// What is told where this block is at fault.
fn told_of(bad: Option<u64>) -> Told {
    match bad {
        Some(block) => Err(RecoverWhy::BadSegment { block }),
        None => MERGED_TOLD,
    }
}

// Whether the first of these segments is sealed in a vault.
fn is_left(vault: &mut MemoryVault, sealed: &[Sealed]) -> Result<bool, Fail> {
    match sealed {
        [(number, _), ..] => Ok(vault.open(*number)?.is_some()),
        [] => Ok(false),
    }
}

// Whether an index of this log and this segment is told to have these blocks at fault by looking into it and by opening it,
// which leaves the segment.
fn tells(
    alloc: Global,
    log: &[u8],
    sealed: &[Sealed],
    seen: Option<u64>,
    opened: Option<u64>,
) -> Result<bool, Fail> {
    let looked = looks(alloc, log, sealed, told_of(seen))?;
    let (told, left) = reopened(alloc, stored(alloc, log, sealed, CALM)?)?;
    let mut left = left;
    Ok(looked && told == told_of(opened) && is_left(&mut left.vault, sealed)?)
}

// What is changed in segment 19, and the block that is then at fault for looking into the index and for opening it.
type Change = (&'static [(usize, u8)], Option<u64>, Option<u64>);

// As the segment of the last End, of which opening reads no node block.
const OF_THE_END: [Change; 8] = [
    (&[], None, None),
    // The code of the first row, and that of the third.
    (&[(4100, 31)], Some(2), None),
    (&[(4110, 49)], Some(4), None),
    // The degree of the second.
    (&[(12292, 3)], Some(3), None),
    // Its Pid, which is that of the first; and the last Pid, which isn't below the next one.
    (&[(4101, 2)], Some(1), Some(1)),
    (&[(4106, 5)], Some(1), Some(1)),
    // Another number, and another magic.
    (&[(8, 21)], Some(0), Some(0)),
    (&[(0, 66)], Some(0), Some(0)),
];

// As the base's segment, of which opening reads the node blocks, and doesn't look at the codes.
const OF_THE_BASE: [Change; 8] = [
    (&[], None, None),
    (&[(4100, 31)], Some(2), None),
    (&[(12292, 3)], Some(3), Some(3)),
    (&[(4106, 5)], Some(1), Some(1)),
    (&[(8, 21)], Some(0), Some(0)),
    // The tag of the third row is that of the first.
    (&[(16392, 3)], Some(4), Some(4)),
    // So is the tag of the second, and the third row's block isn't in the format.
    (&[(12296, 3)], Some(3), Some(3)),
    (&[(12296, 3), (16388, 3)], Some(4), Some(4)),
];

// The first of these changes that is told otherwise.
fn wrong_change(alloc: Global, log: &[u8], changes: &[Change]) -> Result<Option<usize>, Fail> {
    for (row, (places, seen, opened)) in changes.iter().enumerate() {
        let mut bytes = text(alloc, NINETEEN)?;
        put(&mut bytes, places);
        if !tells(alloc, log, &[(19, &bytes)], *seen, *opened)? {
            return Ok(Some(row));
        }
    }
    Ok(None)
}

// Whether a segment that isn't there is told by block 0.
fn is_missed(alloc: Global, log: &[u8]) -> Result<bool, Fail> {
    let bytes = text(alloc, NINETEEN)?;
    tells(alloc, log, &[(17, &bytes)], Some(0), Some(0))
}

// The first of these changes that is told otherwise, and whether a segment that isn't there is told.
fn wrong_in(
    alloc: Global,
    front: &[u8],
    steps: &[Step],
    changes: &[Change],
) -> Result<(Option<usize>, bool), Fail> {
    let log = log(alloc, front, steps)?;
    Ok((wrong_change(alloc, &log, changes)?, is_missed(alloc, &log)?))
}

#[test]
fn a_changed_segment_of_the_last_end(rt: HostRuntime) -> Result<(), Fail> {
    let wrong = wrong_in(rt.alloc(), &LINE, MERGED, &OF_THE_END)?;
    assert_eq!(rt; wrong, (None, true));
    Ok(())
}

#[test]
fn a_changed_segment_of_the_base(rt: HostRuntime) -> Result<(), Fail> {
    let wrong = wrong_in(rt.alloc(), &BASED, &[], &OF_THE_BASE)?;
    assert_eq!(rt; wrong, (None, true));
    Ok(())
}
