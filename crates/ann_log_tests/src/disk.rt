ghost use Rattle.std.specs.Prelude.{◌≡◌, length};
ghost use Rattle.ann_disk.specs.Memory.{memory_bytes};

use ann_disk::{DiskFile, Failed, LogFile, MemoryFile, cut_synced, write_synced};
use std::alloc::{AllocError, Global};
use std::fs::{self, File, Files};
use std::io;
use std::test::Fail;

// How many images are looked at: enough that a byte of noise takes each of its 256 values.
const CHOOSERS: u64 = 1 << 13;

// Of the images of a file: the least and the greatest length, and how many values the byte at a place takes.
type Spread = (usize, usize, usize);

fn spread(file: &MemoryFile, place: usize) -> Result<Spread, AllocError> {
    let (mut least, mut greatest) = (usize::MAX, 0);
    let mut values = [false; 256];
    for chooser in 0..CHOOSERS {
        let image = file.images(chooser)?;
        least = least.min(image.bytes().len());
        greatest = greatest.max(image.bytes().len());
        if let Some(&byte) = image.bytes().get(place) {
            values[byte as usize] = true;
        }
    }
    let count = values.iter().filter(|&&is_met| is_met).count();
    Ok((least, greatest, count))
}

// Whether a file has these bytes, and at a place this spread; not where there is no memory.
fn is_so(file: &MemoryFile, bytes: &[u8], place: usize, wanted: Spread) -> bool {
    file.bytes() == bytes && matches!(spread(file, place), Ok(found) if found == wanted)
}

// A call of a file, if any.
enum Call {
    Nothing,
    Write(u64, &'static [u8]),
    Cut(u64),
    Sync,
}

// Makes a call whose place lies in the file or at its end, and says whether it goes well.
fn goes_well(file: &mut MemoryFile, call: &Call) -> bool {
    let length = file.bytes().len() as u64;
    match *call {
        Call::Nothing => true,
        Call::Write(at, bytes) => at <= length && file.write_at(at, bytes).is_ok(),
        Call::Cut(to) => to <= length && file.cut(to).is_ok(),
        Call::Sync => file.sync().is_ok(),
    }
}

// What is shown, a call, whether it goes well, the bytes that the file then has, and the spread at a place.
type Row = (&'static str, Call, bool, &'static [u8], usize, Spread);

fn is_answered(file: &mut MemoryFile, (_, call, is_ok, bytes, place, wanted): &Row) -> bool {
    goes_well(file, call) == *is_ok && is_so(file, bytes, *place, *wanted)
}

// The first of these calls, on a file of the bytes 1 to 4 of which this call fails, that is answered otherwise.
fn wrong_call(
    alloc: Global,
    failing: u64,
    rows: &[Row],
) -> Result<Option<&'static str>, AllocError> {
    let mut file = MemoryFile::new(alloc, &[1, 2, 3, 4], &[failing])?;
    for row in rows {
        if !is_answered(&mut file, row) {
            return Ok(Some(row.0));
        }
    }
    Ok(None)
}

// What is written is in doubt until it is synced, and so is the end.
const TORN: &[Row] = &[
    (
        "a new file",
        Call::Nothing,
        true,
        &[1, 2, 3, 4],
        1,
        (4, 4, 1),
    ),
    (
        "a byte is written",
        Call::Write(1, &[9]),
        true,
        &[1, 9, 3, 4],
        1,
        (4, 4, 256),
    ),
    (
        "the byte before it stays",
        Call::Nothing,
        true,
        &[1, 9, 3, 4],
        0,
        (4, 4, 1),
    ),
    (
        "the byte behind it stays",
        Call::Nothing,
        true,
        &[1, 9, 3, 4],
        2,
        (4, 4, 1),
    ),
    (
        "the write is synced",
        Call::Sync,
        true,
        &[1, 9, 3, 4],
        1,
        (4, 4, 1),
    ),
    (
        "two bytes are written behind the end",
        Call::Write(4, &[5, 6]),
        true,
        &[1, 9, 3, 4, 5, 6],
        5,
        (4, 6, 256),
    ),
    (
        "they are synced",
        Call::Sync,
        true,
        &[1, 9, 3, 4, 5, 6],
        5,
        (6, 6, 1),
    ),
    (
        "the file is cut",
        Call::Cut(3),
        true,
        &[1, 9, 3],
        4,
        (3, 6, 1),
    ),
];

#[test]
fn a_crash_tears_what_is_unsynced(rt: HostRuntime) -> Result<(), Fail> {
    assert_eq!(rt; wrong_call(rt.alloc(), 0, TORN)?, None);
    Ok(())
}

// A file may be moved into a thread.
fn is_send<F: LogFile + Send>(_file: &F) {}

// Through the bound alone.
fn length<F: LogFile>(file: &mut F) -> Result<u64, Failed> {
    file.length()
}

// A failing write writes its first half, and its whole range is in doubt.
const FAILING_WRITE: &[Row] = &[(
    "a write fails",
    Call::Write(1, &[7, 8]),
    false,
    &[1, 7, 3, 4],
    2,
    (4, 4, 256),
)];

// A failing cut cuts half, and any end is in doubt.
const FAILING_CUT: &[Row] = &[("a cut fails", Call::Cut(0), false, &[1, 2], 0, (0, 4, 1))];

// A failing sync leaves all in doubt.
const FAILING_SYNC: &[Row] = &[
    (
        "a byte is written",
        Call::Write(1, &[9]),
        true,
        &[1, 9, 3, 4],
        1,
        (4, 4, 256),
    ),
    (
        "the sync fails",
        Call::Sync,
        false,
        &[1, 9, 3, 4],
        1,
        (4, 4, 256),
    ),
];

#[test]
fn the_listed_calls_fail(rt: HostRuntime) -> Result<(), Fail> {
    let alloc = rt.alloc();
    let wrong = (
        wrong_call(alloc, 1, FAILING_WRITE)?,
        wrong_call(alloc, 1, FAILING_CUT)?,
        wrong_call(alloc, 2, FAILING_SYNC)?,
    );
    assert_eq!(rt; wrong, (None, None, None));
    Ok(())
}

// Whether the second call of a file of the bytes 1 to 4 fails, and the fourth.
fn fails_twice(file: &mut MemoryFile) -> bool
    requires { length (memory_bytes file.old) ≡ 4 }
{
    is_send(file);
    let mut buf = [0; 2];
    file.read_at(1, &mut buf) == Ok(())
        && buf.as_slice() == [2, 3].as_slice()
        && file.length() == Err(Failed)
        && file.length() == Ok(4)
        && file.sync() == Err(Failed)
        && file.sync() == Ok(())
        && length(file) == Ok(4)
}

fn go_well(alloc: Global) -> Result<bool, AllocError> {
    let mut file = MemoryFile::new(alloc, &[1, 2, 3, 4], &[2, 4])?;
    Ok(fails_twice(&mut file))
}

#[test]
fn the_other_calls_go_well(rt: HostRuntime) -> Result<(), Fail> {
    assert!(rt; go_well(rt.alloc())?);
    Ok(())
}

// Whether a write with its sync leaves one image, and a cut with its sync.
fn leaves_one_image(alloc: Global) -> Result<bool, AllocError> {
    let mut file = MemoryFile::new(alloc, &[1, 2, 3, 4], &[])?;
    Ok(
        write_synced(&mut file, 1, &[9, 9]).is_ok()
            && is_so(&file, &[1, 9, 9, 4], 1, (4, 4, 1))
            && cut_synced(&mut file, 2).is_ok()
            && is_so(&file, &[1, 9], 1, (2, 2, 1)),
    )
}

#[test]
fn a_synced_call_leaves_one_image(rt: HostRuntime) -> Result<(), Fail> {
    assert!(rt; leaves_one_image(rt.alloc())?);
    Ok(())
}

// Whether a new file takes two writes and a cut.
fn is_written<R: Files<File = File> + Drop>(file: &mut DiskFile<R>) -> bool {
    length(file) == Ok(0)
        && file.write_at(0, b"hello").is_ok()
        && file.write_at(4, b"p it").is_ok()
        && file.sync().is_ok()
        && file.cut(6).is_ok()
        && file.faults() == 0
}

// Whether what lies outside this file of six bytes is refused.
fn is_bounded<R: Files<File = File> + Drop>(file: &mut DiskFile<R>) -> bool {
    let mut buf = [0; 6];
    file.read_at(1, &mut buf) == Err(Failed)
        && file.read_at(7, &mut []) == Err(Failed)
        && file.read_at(u64::MAX, &mut buf) == Err(Failed)
        && file.write_at(7, b"x") == Err(Failed)
        && file.write_at(u64::MAX, b"x") == Err(Failed)
        && file.cut(7) == Err(Failed)
        && file.faults() == 6
}

// Whether the file holds what was written, and nothing was lost.
fn is_kept<R: Files<File = File> + Drop>(file: &mut DiskFile<R>) -> bool {
    let mut buf = [0; 6];
    file.read_at(0, &mut buf).is_ok()
        && buf.as_slice() == b"hellp ".as_slice()
        && file.length() == Ok(6)
}

// Whether a file of this name is made by its first call, and another opens it while it is open, and reads it.
fn serves<R: Files<File = File> + Copy + Drop>(files: R, name: &'static str) -> io::Result<bool> {
    let mut file = DiskFile::new(files, name);
    let is_there = fs::exists(&files, name)?;
    let is_served = is_written(&mut file) && is_bounded(&mut file);
    let mut again = DiskFile::new(files, name);
    Ok(!is_there && is_served && is_kept(&mut again))
}

#[test]
fn a_file_of_the_system(rt: HostRuntime) -> Result<(), Fail> {
    let name = "ann_disk_test.log";
    let _ = fs::remove_file(&rt, name);
    is_send(&DiskFile::new(rt, name));
    assert!(rt; serves(rt, name)?);
    fs::remove_file(&rt, name)?;
    Ok(())
}

// Whether each call of this file fails.
fn fails<R: Files<File = File> + Drop>(files: R, name: &'static str) -> bool {
    let mut file = DiskFile::new(files, name);
    file.length() == Err(Failed)
        && file.write_at(0, b"x") == Err(Failed)
        && file.sync() == Err(Failed)
        && file.faults() == 3
}

#[test]
fn a_file_that_cannot_be_opened(rt: HostRuntime) -> Result<(), Fail> {
    let folder = "ann_disk_test_folder";
    let _ = fs::remove_dir(&rt, folder);
    fs::create_dir(&rt, folder)?;
    let answers = (
        fails(rt, folder),
        fails(rt, "ann_disk_test_missing/ann.log"),
    );
    assert_eq!(rt; answers, (true, true));
    fs::remove_dir(&rt, folder)?;
    Ok(())
}
