ghost use Rattle.std.specs.Prelude.{◌≡◌};
ghost use Rattle.ann_types.specs.Lists.{empty_list};

use crate::{Keeper, ListName, Opened};
use ann_types::Entry;
use std::marker::Brand;
use std::test::Fail;

// The lengths of a front before, between and behind two entries, read once both are added.
fn lengths<N: ListName>(opened: Opened, first: &Entry, second: &Entry) -> (u64, u64, u64)
    requires name { opened ≡ N.origin }
    requires nothing { N.opening ≡ empty_list }
{
    let mut keeper: Keeper<N> = opened.named(0);
    let before = keeper.front();
    keeper.add(first);
    let between = keeper.front();
    keeper.add(second);
    let behind = keeper.front();
    keeper.covers(&between);
    before.begins(&between);
    (before.at(), between.again().at(), behind.at())
}

#[test]
fn a_front_stays_while_the_list_grows(rt: HostRuntime) -> Result<(), Fail> {
    let first = Entry::Delete { by: 0, tag: 7 };
    let second = Entry::Begin { by: 1 };
    let at = lengths::<Brand>(Opened::new(), &first, &second);
    assert!(rt; at == (0, 1, 2));
    Ok(())
}
