ghost use Rattle.std.specs.Prelude.{◌≡◌, ◌∷◌, [], IfOk};

use ann_mdelete::Lists;
use ann_mplan::{Packing, invert};
use std::alloc::Global;
use std::test::Fail;

// The lists of two new points, each linked to both rows of a base.
fn links(alloc: Global) -> Result<Lists, Fail>
    ensures { IfOk result (λ links. links ≡ (0 ∷ 1 ∷ []) ∷ (0 ∷ 1 ∷ []) ∷ []) }
{
    let mut links = Lists::new(alloc);
    links.push(&[0, 1])?;
    links.push(&[0, 1])?;
    Ok(links)
}

#[test]
fn links_are_turned_round(rt: HostRuntime) -> Result<(), Fail> {
    let delta = invert(rt.alloc(), &links(rt.alloc())?, 2)?;
    let turned = delta.len() == 2
        && delta.get(0) == [2, 3].as_slice()
        && delta.get(1) == [2, 3].as_slice();
    assert!(rt; turned);
    Ok(())
}

#[test]
fn survivors_are_named_by_their_ranks(rt: HostRuntime) -> Result<(), Fail> {
    let packing = Packing::new(rt.alloc(), &[false, true, false])?;
    assert!(rt; packing.survivors() == [0, 2].as_slice());
    Ok(())
}
