ghost use Rattle.std.specs.Prelude.{◌≡◌, ◌<◌, ◌^◌, length};

use crate::rows::{codebook, line, params, points, vectors};
use ann_greedy::Graph;
use ann_mdelete::Lists;
use ann_minsert::{Base, LinkScratch, base, link_piece, mean_entry};
use std::alloc::{AllocError, Global};
use std::test::Fail;

#[test]
fn the_mean_is_a_floor_and_a_tie_goes_to_the_first(rt: HostRuntime) -> Result<(), Fail> {
    let alloc = rt.alloc();
    let mut mean = [9];
    let near = vectors(alloc, &[1, 2])?;
    let floored = mean_entry(&near, &mut mean) == Some(0) && mean == [1];
    let far = vectors(alloc, &[0, 16])?;
    let first = mean_entry(&far, &mut mean) == Some(0) && mean == [8];
    let none = mean_entry(&vectors(alloc, &[])?, &mut []) == None;
    assert!(rt; floored && first && none);
    Ok(())
}

// The codes of 8 and 10 stand for 0, by the tie, and 16.
#[test]
fn a_base_is_made_of_decoded_vectors(rt: HostRuntime) -> Result<(), Fail> {
    let alloc = rt.alloc();
    let book = codebook(alloc, 0xF0)?;
    let made = base(alloc, &points(alloc, 0, &[8, 10])?, &book, &params()?)?;
    let linked = Graph::count(&made) == 2
        && Graph::entry(&made) == Some(0)
        && Graph::vector(&made, 0) == [0].as_slice()
        && Graph::vector(&made, 1) == [16].as_slice()
        && Graph::neighbours(&made, 0) == [1].as_slice()
        && Graph::neighbours(&made, 1) == [0].as_slice();
    assert!(rt; linked);
    Ok(())
}

// The lists of new points with these components, from Pid 2 on, linked to a base of 10 and 30.
fn linked(alloc: Global, components: &[u8]) -> Result<Lists, Fail>
    requires { length components.now < 2 ^ 16 }
{
    let params = params()?;
    let base = Base::of(alloc, line(alloc, 2)?, vectors(alloc, &[10, 30])?)?;
    let new = points(alloc, 2, components)?;
    let mut scratch = LinkScratch::new(alloc)?;
    let mut links = Lists::new(alloc);
    let book = codebook(alloc, 0xFF)?;
    link_piece(&base, &new, &book, &params, &mut scratch, &mut links)?;
    Ok(links)
}

#[test]
fn new_points_dont_see_each_other(rt: HostRuntime) -> Result<(), Fail> {
    let links = linked(rt.alloc(), &[20, 21])?;
    let both = links.len() == 2
        && links.get(0) == [0, 1].as_slice()
        && links.get(1) == [0, 1].as_slice();
    assert!(rt; both);
    Ok(())
}
