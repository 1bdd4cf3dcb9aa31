use ann_tags::Tags;
use std::alloc::{AllocError, Global};
use std::test::Fail;

// Adds a tag where it isn't there yet.
fn put(tags: &mut Tags, tag: u64, pid: u32) -> Result<(), AllocError> {
    if tags.get(tag).is_none() {
        tags.reserve(1)?;
        tags.insert(tag, pid);
    }
    Ok(())
}

// Whether tags are found until they are removed, and keep their first Pid.
fn are_found(alloc: Global) -> Result<bool, AllocError> {
    let mut tags = Tags::new(alloc);
    let before = tags.get(7);
    tags.reserve(3)?;
    for (tag, pid) in [(7, 0), (u64::MAX, 1), (8, 2), (7, 3)] {
        put(&mut tags, tag, pid)?;
    }
    tags.remove(7);
    tags.remove(9);
    let after = (tags.get(7), tags.get(u64::MAX), tags.get(8));
    Ok(before == None && tags.count() == 2 && after == (None, Some(1), Some(2)))
}

#[test]
fn tags_are_found_until_they_are_removed(rt: HostRuntime) -> Result<(), Fail> {
    assert!(rt; are_found(rt.alloc())?);
    Ok(())
}
