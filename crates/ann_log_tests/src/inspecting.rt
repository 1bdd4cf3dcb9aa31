// Calls that fail while a log is looked into.
use crate::texts::{FRAME, FRONT_TWO, failing_files, have, inspected, text};
use ann_log::OpenWhy;
use std::alloc::{AllocError, Global};
use std::test::Fail;

// Whether looking into a log with these failing calls leaves its files as they were.
fn looking_keeps(alloc: Global, bytes: &[u8], first: u64, second: u64) -> Result<bool, AllocError> {
    let mut looked_into = failing_files(alloc, bytes, first, second)?;
    let found = inspected(alloc, &mut looked_into);
    Ok(found == Err(OpenWhy::Disk) && have(&looked_into, bytes, &[]))
}

fn wrong_looking(alloc: Global) -> Result<Option<(u64, u64)>, AllocError> {
    let bytes = text(alloc, &FRONT_TWO, &FRAME)?;
    for &(first, second) in &[(1, 0), (2, 0), (0, 1), (0, 2)] {
        if !looking_keeps(alloc, &bytes, first, second)? {
            return Ok(Some((first, second)));
        }
    }
    Ok(None)
}

#[test]
fn a_failing_call_of_looking_into_changes_nothing(rt: HostRuntime) -> Result<(), Fail> {
    assert_eq!(rt; wrong_looking(rt.alloc())?, None);
    Ok(())
}
