ghost use Rattle.std.specs.Prelude.{◌≡◌, ◌<◌, length, IfOk};

use crate::points::{codebook, params, put, segment, two_points};
use ann_dead::Dead;
use ann_mdelete::{Decoded, Lists, Loaded, WorkRefused, load_piece};
use ann_mplan::{decode_rows, deleted_rows, read_lists};
use ann_segment::Segment;
use ann_vault::{MemoryEye, MemorySeal};
use std::alloc::Global;
use std::test::Fail;

/// A byte of the segment that is another, which call of the eye fails, and why the piece is refused.
type Case = ((usize, u8), u64, WorkRefused);

const REFUSED: [Case; 8] = [
    // Pid, degree and the two bytes behind it, a row that there isn't, the row itself, and the last byte of the block.
    ((8192, 9), 9, WorkRefused::BadSegment { block: 2 }),
    ((8196, 3), 9, WorkRefused::BadSegment { block: 2 }),
    ((8198, 1), 9, WorkRefused::BadSegment { block: 2 }),
    ((8209, 2), 9, WorkRefused::BadSegment { block: 2 }),
    ((8209, 0), 9, WorkRefused::BadSegment { block: 2 }),
    ((12287, 1), 9, WorkRefused::BadSegment { block: 2 }),
    // The Pid of the second block, and the first read.
    ((12288, 7), 9, WorkRefused::BadSegment { block: 3 }),
    ((0, b'A'), 1, WorkRefused::Disk),
];

// The segment of 10 and 20, one byte of which is another.
fn changed(alloc: Global, change: (usize, u8)) -> Result<Segment<MemorySeal>, Fail>
    ensures some { IfOk result (λ segment. 0 < length segment.items) }
    ensures codes { IfOk result (λ segment. segment.m ≡ 1) }
{
    let mut bytes = two_points(alloc, 5, [10, 20], [10, 20])?;
    put(&mut bytes, &[change]);
    let segment = segment(alloc, 5, &bytes, &params(100)?)?;
    if segment.count() == 0 {
        return Err("no rows".into());
    }
    Ok(segment)
}

// What loading its rows gives, where a call of the eye fails.
fn loaded(
    alloc: Global,
    change: (usize, u8),
    failing: u64,
) -> Result<Result<Loaded, WorkRefused>, Fail>
    ensures pairs { IfOk result (λ loaded.
        IfOk loaded (λ piece. length piece.tags ≡ length piece.lists)) }
{
    let segment = changed(alloc, change)?;
    let mut eye = MemoryEye::new(alloc, &[failing])?;
    let mut piece = Loaded::new(alloc)?;
    match load_piece(&segment, &mut eye, &params(100)?, 0, &mut piece) {
        Ok(()) => Ok(Ok(piece)),
        Err(why) => Ok(Err(why)),
    }
}

// Whether the piece is refused so.
fn is_refused(alloc: Global, case: &Case) -> Result<bool, Fail> {
    let (change, failing, why) = case;
    match loaded(alloc, *change, *failing)? {
        Ok(_) => Ok(false),
        Err(answered) => Ok(answered == *why),
    }
}

// The first case that is answered otherwise.
fn first_other(alloc: Global) -> Result<Option<usize>, Fail> {
    for (at, case) in REFUSED.iter().enumerate() {
        if !is_refused(alloc, case)? {
            return Ok(Some(at));
        }
    }
    Ok(None)
}

#[test]
fn a_changed_byte_is_found_where_it_stands(rt: HostRuntime) -> Result<(), Fail> {
    let other = first_other(rt.alloc())?;
    assert!(rt; other == None);
    Ok(())
}

#[test]
fn a_piece_has_tags_and_lists(rt: HostRuntime) -> Result<(), Fail> {
    let Ok(piece) = loaded(rt.alloc(), (8200, 7), 9)? else {
        return Err("a refused piece".into());
    };
    let read = piece.count() == 2
        && piece.tag(0) == 7
        && piece.tag(1) == 2
        && piece.list(0) == [1].as_slice()
        && piece.list(1) == [0].as_slice();
    assert!(rt; read);
    Ok(())
}

// The lists of all rows of the segment, read by an eye of which a call fails.
fn lists(alloc: Global, failing: u64) -> Result<Result<Lists, WorkRefused>, Fail> {
    let segment = changed(alloc, (0, b'A'))?;
    let mut eye = MemoryEye::new(alloc, &[failing])?;
    let mut piece = Loaded::new(alloc)?;
    let mut lists = Lists::new(alloc);
    match read_lists(&segment, &mut eye, &params(100)?, &mut piece, &mut lists) {
        Ok(()) => Ok(Ok(lists)),
        Err(why) => Ok(Err(why)),
    }
}

// The decoded vectors of its rows, by a codebook whose centroids are even, where the code of the second row is 21.
fn decoded(alloc: Global) -> Result<Decoded, Fail> {
    let segment = changed(alloc, (4105, 21))?;
    Ok(decode_rows(alloc, &segment, &codebook(alloc, 0xFE)?)?)
}

// Which of its rows are deleted, where the second is.
fn deleted(alloc: Global) -> Result<Vec<bool>, Fail> {
    let segment = changed(alloc, (0, b'A'))?;
    let mut dead = Dead::new(alloc);
    dead.add(1)?;
    Ok(deleted_rows(alloc, &segment, &dead)?)
}

#[test]
fn a_merge_reads_lists_codes_and_deletes(rt: HostRuntime) -> Result<(), Fail> {
    let alloc = rt.alloc();
    let Ok(lists) = lists(alloc, 2)? else {
        return Err("refused lists".into());
    };
    assert!(rt;
        lists.len() == 2 && lists.get(0) == [1].as_slice() && lists.get(1) == [0].as_slice()
    );
    let decoded = decoded(alloc)?;
    assert!(rt;
        decoded.len() == 2
            && decoded.vector(0) == [10].as_slice()
            && decoded.vector(1) == [20].as_slice()
    );
    assert!(rt; deleted(alloc)?.as_slice() == [false, true].as_slice());
    Ok(())
}
