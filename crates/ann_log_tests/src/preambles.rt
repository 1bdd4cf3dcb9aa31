// Which preambles are valid, and which of two files is the log.
use crate::texts::{
    FRAME, FRONT_ONE, FRONT_TWO, Outcome, answers, based, changed, files, found_in, text,
};
use ann_log::OpenWhy;
use std::alloc::{AllocError, Global};
use std::test::Fail;

// Whether a file with these bytes is read as a log of one entry and of this generation, whichever of the two it is.
fn is_log(alloc: Global, bytes: &[u8], generation: u64) -> Result<bool, AllocError> {
    let found = found_in(alloc, files(alloc, bytes, &[])?);
    Ok(
        found == Some((generation, 1))
            && answers(alloc, bytes, &[], Ok(1), 0)?
            && answers(alloc, &[], bytes, Ok(1), 0)?,
    )
}

// The size of a file of each version, and its generation. A file of version 1 has neither a generation nor a base. So it
// is 32 bytes shorter, and its generation is 0.
fn wrong_version(alloc: Global) -> Result<Option<usize>, AllocError> {
    for &(front, size, generation) in &[
        (FRONT_TWO.as_slice(), 606, 1),
        (FRONT_ONE.as_slice(), 574, 0),
    ] {
        let bytes = text(alloc, front, &FRAME)?;
        if bytes.len() != size || !is_log(alloc, &bytes, generation)? {
            return Ok(Some(size));
        }
    }
    Ok(None)
}

#[test]
fn both_versions_are_read(rt: HostRuntime) -> Result<(), Fail> {
    assert_eq!(rt; wrong_version(rt.alloc())?, None);
    Ok(())
}

// A place among the fields that both versions have, another byte for it, and whether the file is still a log. In the last
// six rows R, l_build, a, w or freeze_at is another one within its limits. There is no other b, which is at most a, and a
// is 1. There is no other d or m, which the codebook has too.
const FIELDS: [(usize, u8, bool); 36] = [
    (0, 0, false),
    (0, 0x7f, false),
    (0, 0xff, false),
    (1, 66, false),
    (8, 51, false),
    (9, 0, false),
    (9, 1, false),
    (9, 3, false),
    (9, 4, false),
    (10, 4, false),
    (11, 0, false),
    (11, 1, false),
    (11, 129, false),
    (13, 0, false),
    (14, 4, false),
    (15, 0, false),
    (15, 101, false),
    (17, 0, false),
    (17, 2, false),
    (19, 0, false),
    (19, 17, false),
    (21, 0, false),
    (21, 1, false),
    (21, 3, false),
    (21, 65, false),
    (23, 1, false),
    (24, 1, false),
    (25, 0, false),
    (27, 2, false),
    (28, 1, false),
    (11, 3, true),
    (13, 5, true),
    (15, 2, true),
    (19, 16, true),
    (25, 1, true),
    (25, 101, true),
];

// The other magic, and the places behind those fields in version 2: the generation, the base's position, segment and next
// Pid, and the codebook. Another generation than 0 may stand there, and another centroid.
const FIELDS_TWO: [(usize, u8, bool); 19] = [
    (8, 49, false),
    (29, 0, false),
    (37, 1, false),
    (37, 2, false),
    (44, 1, false),
    (45, 1, false),
    (45, 2, false),
    (52, 1, false),
    (53, 1, false),
    (57, 1, false),
    (61, 66, false),
    (68, 50, false),
    (69, 1, false),
    (70, 1, false),
    (71, 1, false),
    (72, 1, false),
    (29, 2, true),
    (36, 0xff, true),
    (73, 9, true),
];

// With a base of position 11, segment 19 and next Pid 7. Another next Pid below 2^32 may stand there.
const FIELDS_BASED: [(usize, u8, bool); 9] = [
    (37, 0, false),
    (37, 12, false),
    (45, 0, false),
    (45, 20, false),
    (45, 21, false),
    (52, 0x80, false),
    (57, 1, false),
    (53, 0, true),
    (56, 0xff, true),
];

// The other magic, and the codebook of version 1. Another centroid may stand there.
const FIELDS_ONE: [(usize, u8, bool); 8] = [
    (8, 50, false),
    (29, 66, false),
    (36, 50, false),
    (37, 1, false),
    (38, 1, false),
    (39, 1, false),
    (40, 1, false),
    (41, 9, true),
];

// Whether a file with this byte among its fields is answered so.
fn field_answers(
    alloc: Global,
    whole: &[u8],
    (place, byte, is_log): (usize, u8, bool),
) -> Result<bool, AllocError> {
    let bytes = changed(alloc, whole, place, byte)?;
    let wanted = if is_log { Ok(1) } else { Err(OpenWhy::NoIndex) };
    answers(alloc, &bytes, &[], wanted, 0)
}

// The table, the place and the byte that are answered otherwise.
type Wrong = Option<(&'static str, usize, u8)>;

// The first row of a table of fields that is answered otherwise.
fn wrong_row(
    alloc: Global,
    name: &'static str,
    front: &[u8],
    rows: &[(usize, u8, bool)],
) -> Result<Wrong, AllocError> {
    let whole = text(alloc, front, &FRAME)?;
    for &row in rows {
        if !field_answers(alloc, &whole, row)? {
            return Ok(Some((name, row.0, row.1)));
        }
    }
    Ok(None)
}

// Each front with the tables of its fields.
fn wrong_field(alloc: Global) -> Result<Wrong, AllocError> {
    let based = based();
    for &(name, front, rows) in &[
        ("version 2", FRONT_TWO.as_slice(), FIELDS.as_slice()),
        (
            "version 2 alone",
            FRONT_TWO.as_slice(),
            FIELDS_TWO.as_slice(),
        ),
        ("with a base", based.as_slice(), FIELDS_BASED.as_slice()),
        ("version 1", FRONT_ONE.as_slice(), FIELDS.as_slice()),
        (
            "version 1 alone",
            FRONT_ONE.as_slice(),
            FIELDS_ONE.as_slice(),
        ),
    ] {
        if let Some(row) = wrong_row(alloc, name, front, rows)? {
            return Ok(Some(row));
        }
    }
    Ok(None)
}

#[test]
fn a_changed_field_is_no_index(rt: HostRuntime) -> Result<(), Fail> {
    assert_eq!(rt; wrong_field(rt.alloc())?, None);
    Ok(())
}

// The made byte and the generation of the first file, which holds an entry, and of the second, which holds none.
const PAIRS: [(u8, u8, u8, u8, Outcome); 7] = [
    (1, 1, 1, 1, Ok(1)),
    (1, 1, 1, 2, Ok(0)),
    (1, 2, 1, 1, Ok(1)),
    (1, 1, 0, 2, Ok(1)),
    (0, 2, 1, 1, Ok(0)),
    (0, 1, 0x7f, 2, Err(OpenWhy::NoIndex)),
    (1, 1, 1, 0, Ok(1)),
];

// The fields of version 2 with this made byte and this generation.
fn front_of(made: u8, generation: u8) -> [u8; 61] {
    let mut front = FRONT_TWO;
    front[0] = made;
    front[29] = generation;
    front
}

// Whether a log with an entry and one without are answered so.
fn pair_answers(
    alloc: Global,
    first: &[u8],
    second: &[u8],
    wanted: Outcome,
) -> Result<bool, AllocError> {
    let first = text(alloc, first, &FRAME)?;
    let second = text(alloc, second, &[0])?;
    answers(alloc, &first, &second, wanted, 0)
}

fn wrong_pair(alloc: Global) -> Result<Option<(u8, u8, u8, u8)>, AllocError> {
    for &(made_first, first, made_second, second, wanted) in &PAIRS {
        let old = front_of(made_first, first);
        let new = front_of(made_second, second);
        if !pair_answers(alloc, &old, &new, wanted)? {
            return Ok(Some((made_first, first, made_second, second)));
        }
    }
    Ok(None)
}

#[test]
fn the_newer_file_is_the_log(rt: HostRuntime) -> Result<(), Fail> {
    let alloc = rt.alloc();
    let answers = (
        wrong_pair(alloc)?,
        // A file of version 1 is the older one.
        pair_answers(alloc, &FRONT_ONE, &FRONT_TWO, Ok(0))?,
    );
    assert_eq!(rt; answers, (None, true));
    Ok(())
}
