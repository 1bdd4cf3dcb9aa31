use ann_script::Filling;
use ann_types::{Change, Tag};
use std::alloc::{AllocError, Global};
use std::test::Fail;

/// The first insert of a list that isn't of these tags and components.
fn wrong_insert(changes: &[Change], wanted: &[(Tag, &[u8])]) -> Option<usize> {
    for (row, (change, (tag, components))) in changes.iter().zip(wanted.iter()).enumerate() {
        let is_right = match change {
            Change::Insert {
                tag: inserted,
                vector,
            } => *inserted == *tag && vector.bytes() == *components,
            _ => false,
        };
        if !is_right {
            return Some(row);
        }
    }
    None
}

/// How many inserts the updates of a fill have, one after the other, and whether those of the first and the last update
/// begin as they should.
fn fills(alloc: Global) -> Result<((usize, usize, u32), bool), AllocError> {
    let mut filling = Filling::new(2, 1, 66, 18446744073709551550);
    let first = filling.next_batch(alloc)?;
    let second = filling.next_batch(alloc)?;
    let sizes = (first.items().len(), second.items().len(), filling.left());
    // The components were worked out from the definition by another program.
    let begins: &[(Tag, &[u8])] = &[
        (18446744073709551550, &[198, 126]),
        (18446744073709551551, &[129, 107]),
    ];
    let ends: &[(Tag, &[u8])] = &[
        (18446744073709551614, &[246, 57]),
        (18446744073709551615, &[29, 22]),
    ];
    let is_right = wrong_insert(first.items(), begins).is_none()
        && wrong_insert(second.items(), ends).is_none();
    Ok((sizes, is_right))
}

#[test]
fn fills_by_updates(rt: HostRuntime) -> Result<(), Fail> {
    assert_eq!(rt; fills(rt.alloc())?, ((64, 2, 0), true));
    Ok(())
}
