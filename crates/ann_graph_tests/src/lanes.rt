use ann_lanes::squared;

// How many components first differ so that the distance is another one than 255 squared each.
fn wrong_count() -> Option<usize> {
    let zeros = [0u8; 1024];
    let greatest = [255u8; 1024];
    for (count, wanted) in [
        (0, 0),
        (1, 65_025),
        (15, 975_375),
        (17, 1_105_425),
        (1024, 66_585_600),
    ] {
        if squared(&zeros[..count], &greatest[..count]) != wanted {
            return Some(count);
        }
    }
    None
}

#[test]
fn squares_whole_blocks_and_a_rest(rt: HostRuntime) {
    assert_eq!(rt; wrong_count(), None);
    assert_eq!(rt; squared(&[198, 126], &[129, 107]), 5122);
}
