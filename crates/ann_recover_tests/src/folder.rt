//! The current folder, which also has files that are no sealed segments.

use crate::places::MERGED;
use crate::texts::{LINE, NINETEEN, log, text};
use ann_disk::DiskFile;
use ann_log::Files;
use ann_recover::recover;
use ann_vault::{FolderEye, FolderVault};
use std::alloc::Global;
use std::fs;
use std::test::Fail;

const LOGS: [&str; 2] = ["ann_recover.log", "ann_recover2.log"];

// Which of these are left: the segment of the last End, and what is no segment.
const NAMES: [(&str, bool); 6] = [
    ("0.seg", false),
    ("6.seg", false),
    ("19.seg", true),
    ("7.part", true),
    ("x.seg", true),
    ("07.seg", true),
];

// Writes the log, and the bytes of segment 19 under each name.
fn write(rt: HostRuntime) -> Result<(), Fail> {
    let bytes = text(rt.alloc(), NINETEEN)?;
    for (name, _) in NAMES {
        fs::write(&rt, name, bytes.as_slice())?;
    }
    let log = log(rt.alloc(), &LINE, MERGED)?;
    fs::write(&rt, LOGS[0], log.as_slice())?;
    Ok(())
}

// How many entries and live tags the index in the folder has once it is opened again.
fn reopened(rt: HostRuntime) -> Result<(u64, u64), Fail> {
    let files = Files {
        first: DiskFile::new(rt, LOGS[0]),
        second: DiskFile::new(rt, LOGS[1]),
    };
    let eyes = vec![in rt.alloc(); FolderEye::new()]?;
    match recover(rt.alloc(), files, FolderVault::new(rt), eyes) {
        Ok(parts) => Ok((parts.log.count(), parts.tags.count())),
        Err(refused) => Err(refused.why.into()),
    }
}

// Whether of these names those are left that should be. They are then removed.
fn are_left(rt: HostRuntime) -> Result<bool, Fail> {
    let mut left = true;
    for (name, stays) in NAMES {
        left = left && fs::exists(&rt, name)? == stays;
        let _ = fs::remove_file(&rt, name);
    }
    Ok(left)
}

// Whether the second file is the log that was written anew, of so many bytes. Both are then removed.
fn is_renewed(rt: HostRuntime, size: usize) -> Result<bool, Fail> {
    let old = fs::read(&rt, LOGS[0])?;
    let new = fs::read(&rt, LOGS[1])?;
    for name in LOGS {
        fs::remove_file(&rt, name)?;
    }
    Ok(old.is_empty() && new.len() == size)
}

#[test]
fn the_current_folder(rt: HostRuntime) -> Result<(), Fail> {
    write(rt)?;
    let told = reopened(rt)?;
    let left = (are_left(rt)?, is_renewed(rt, 330)?);
    assert_eq!(rt; (told, left), ((11, 3), (true, true)));
    Ok(())
}
