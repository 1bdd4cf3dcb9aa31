// Files that are cut off, and frames with another byte.
use crate::texts::{FRAME, FRONT_ONE, FRONT_TWO, Outcome, answers, based, changed, text};
use ann_log::OpenWhy;
use std::alloc::{AllocError, Global};
use std::test::Fail;

// The first end at which a cut file is answered otherwise. It lies before the first gate, within the frame, or before the
// gate behind it.
fn wrong_end(alloc: Global, whole: &[u8]) -> Result<Option<usize>, AllocError> {
    for end in 0..whole.len() {
        let why = match whole.len() - end {
            1 => OpenWhy::BadLog { entry: 1 },
            2..=20 => OpenWhy::BadLog { entry: 0 },
            _ => OpenWhy::NoIndex,
        };
        if !answers(alloc, &whole[..end], &[], Err(why), 0)? {
            return Ok(Some(end));
        }
    }
    Ok(None)
}

fn wrong_end_of(alloc: Global, front: &[u8]) -> Result<Option<usize>, AllocError> {
    let whole = text(alloc, front, &FRAME)?;
    wrong_end(alloc, &whole)
}

#[test]
fn a_cut_file_is_refused(rt: HostRuntime) -> Result<(), Fail> {
    let alloc = rt.alloc();
    let ends = (
        wrong_end_of(alloc, &FRONT_TWO)?,
        wrong_end_of(alloc, &FRONT_ONE)?,
    );
    assert_eq!(rt; ends, (None, None));
    Ok(())
}

// A place counted from the first gate, another byte for it, what is found then, and how many bytes opening cuts off. An
// Insert and a Replace fill the 15 bytes of the frame; a Delete, an End and a Begin are shorter, and no whole entry is
// behind them.
const FRAMES: [(usize, u8, Outcome, usize); 18] = [
    (20, 0x00, Ok(1), 0),
    (20, 0x7f, Ok(1), 0),
    (20, 0xff, Ok(1), 0),
    (0, 0x00, Ok(0), 20),
    (0, 0x7f, Ok(0), 20),
    (0, 0xff, Ok(0), 20),
    (20, 0x01, Err(OpenWhy::BadLog { entry: 1 }), 0),
    (1, 0, Err(OpenWhy::BadLog { entry: 0 }), 0),
    (1, 14, Err(OpenWhy::BadLog { entry: 0 }), 0),
    (1, 16, Err(OpenWhy::BadLog { entry: 1 }), 0),
    (4, 1, Err(OpenWhy::BadLog { entry: 1 }), 0),
    (5, 0, Err(OpenWhy::BadLog { entry: 0 }), 0),
    (5, 6, Err(OpenWhy::BadLog { entry: 0 }), 0),
    (5, 2, Err(OpenWhy::BadLog { entry: 1 }), 0),
    (5, 3, Err(OpenWhy::BadLog { entry: 1 }), 0),
    (5, 4, Err(OpenWhy::BadLog { entry: 1 }), 0),
    (5, 5, Ok(1), 0),
    (6, 9, Ok(1), 0),
];

// Whether a log with this byte in its frame is answered so.
fn frame_answers(
    alloc: Global,
    front: &[u8],
    (place, byte, wanted, cut): (usize, u8, Outcome, usize),
) -> Result<bool, AllocError> {
    let frame = changed(alloc, &FRAME, place, byte)?;
    let bytes = text(alloc, front, &frame)?;
    answers(alloc, &bytes, &[], wanted, cut)
}

fn wrong_frame(alloc: Global) -> Result<Option<(usize, u8)>, AllocError> {
    for &row in &FRAMES {
        if !frame_answers(alloc, &FRONT_TWO, row)? || !frame_answers(alloc, &FRONT_ONE, row)? {
            return Ok(Some((row.0, row.1)));
        }
    }
    Ok(None)
}

#[test]
fn a_changed_frame_is_read(rt: HostRuntime) -> Result<(), Fail> {
    assert_eq!(rt; wrong_frame(rt.alloc())?, None);
    Ok(())
}

// Whether a log on a base at position 11, with this byte in its frame, has its first bad entry there.
fn is_bad_at(alloc: Global, place: usize, byte: u8, entry: u64) -> Result<bool, AllocError> {
    let wanted = Err(OpenWhy::BadLog { entry });
    frame_answers(alloc, &based(), (place, byte, wanted, 0))
}

#[test]
fn a_bad_entry_is_counted_from_the_base(rt: HostRuntime) -> Result<(), Fail> {
    let alloc = rt.alloc();
    let answers = (is_bad_at(alloc, 5, 6, 11)?, is_bad_at(alloc, 20, 1, 12)?);
    assert_eq!(rt; answers, (true, true));
    Ok(())
}
