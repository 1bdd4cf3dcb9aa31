//! Places with merges that ended: what opening them again leaves, and what it then answers.

use crate::store::{
    CALM, Failing, Opened, Store, Told, closed, looked_into, numbers, open, reopened, sizes, stored,
};
use crate::texts::{BASED, LINE, NINETEEN, Step, TWENTY_FIVE, log, text};
use Step::{Begin, Delete, End, Insert, Replace};
use ann_beam::Desk;
use ann_types::{Ask, Vector};
use std::alloc::Global;
use std::test::Fail;

/// Two merges, the second after all points of the first were deleted.
pub(crate) const MERGED: &[Step] = &[
    Insert(1, 10),
    Insert(2, 20),
    Begin,
    End(5),
    Delete(1),
    Delete(2),
    Insert(3, 30),
    Insert(4, 40),
    Insert(5, 50),
    Begin,
    End(19),
];

/// One more merge behind those, on the base that is their last segment, with a delete while it is open.
pub(crate) const AGAIN: &[Step] = &[Insert(6, 60), Begin, Delete(4), End(25)];

/// Of the place of the first list.
pub(crate) const MERGED_TOLD: Told = Ok((11, 3, Some(19)));

/// Of the place of the second one.
pub(crate) const AGAIN_TOLD: Told = Ok((15, 3, Some(25)));

/// What is wanted at which place, with which width, and the tags and distances that are found.
type Search = ((u16, u16, u8), &'static [(u64, u32)]);

/// On the first place, on which the points are at 30, 40 and 50.
pub(crate) const MERGED_FOUND: Search = ((3, 4, 30), &[(3, 0), (4, 100), (5, 400)]);

/// On the second one, with a point at 60, and without the one at 40.
pub(crate) const AGAIN_FOUND: Search = ((3, 4, 40), &[(3, 100), (5, 100), (6, 400)]);

/// The first place, whose vault has three segments more.
pub(crate) fn merged(alloc: Global) -> Result<Store, Fail> {
    let bytes = log(alloc, &LINE, MERGED)?;
    let last = text(alloc, NINETEEN)?;
    stored(
        alloc,
        &bytes,
        &[(0, &[7]), (5, &[8]), (6, &[9]), (19, &last)],
        CALM,
    )
}

/// The second place, whose vault has two segments more, and is called four times before.
pub(crate) fn merged_again(alloc: Global, failing: Failing) -> Result<Store, Fail> {
    let bytes = log(alloc, &BASED, AGAIN)?;
    let base = text(alloc, NINETEEN)?;
    let last = text(alloc, TWENTY_FIVE)?;
    stored(
        alloc,
        &bytes,
        &[(0, &[7]), (6, &[9]), (19, &base), (25, &last)],
        failing,
    )
}

// A wish for k points with the width l, near x.
fn ask(alloc: Global, (k, l, x): (u16, u16, u8)) -> Result<Ask, Fail> {
    let vector = Vector::copy(alloc, &[x])?;
    match Ask::new(k, l, vector) {
        Some(ask) => Ok(ask),
        None => Err("no ask".into()),
    }
}

/// Whether these tags and distances stand on a desk.
pub(crate) fn are_hits(desk: &Desk, wanted: &[(u64, u32)]) -> bool {
    for (hit, (tag, distance)) in desk.hits().iter().zip(wanted) {
        if hit.tag != *tag || hit.distance != *distance {
            return false;
        }
    }
    desk.hits().len() == wanted.len()
}

// Whether a search of an index finds this.
fn finds(alloc: Global, parts: &mut Opened, (wish, wanted): Search) -> Result<bool, Fail> {
    let mut desk = Desk::new(alloc, parts.log.params())?;
    let ask = ask(alloc, wish)?;
    let Some(eye) = parts.eyes.first_mut() else {
        return Err("no eye".into());
    };
    let found = parts.view.search(&mut desk, eye, &ask)?;
    Ok(found.at == parts.log.count() && are_hits(&desk, wanted))
}

/// Whether an index opens again, and a search of it finds this.
pub(crate) fn answers(alloc: Global, store: Store, search: Search) -> Result<(bool, Store), Fail> {
    match open(alloc, store)? {
        Ok(parts) => {
            let mut parts = parts;
            let found = finds(alloc, &mut parts, search)?;
            Ok((found, closed(parts)))
        }
        Err((why, _)) => Err(why.into()),
    }
}

// The log's files have these sizes, the second of them this generation, and the vault these numbers.
fn has_left(
    alloc: Global,
    store: &mut Store,
    (wanted, generation, sealed): ((usize, usize), u8, &[u64]),
) -> Result<bool, Fail> {
    let numbers = numbers(alloc, &mut store.vault)?;
    let bytes = store.files.second.bytes();
    Ok(sizes(store) == wanted && bytes.get(29) == Some(&generation) && numbers.as_slice() == sealed)
}

// An index that opens again with these answers, its files then have these sizes, the second of them this generation, and its
// vault these numbers; and once more the same.
fn stays(
    alloc: Global,
    store: Store,
    search: Search,
    left: ((usize, usize), u8, &[u64]),
) -> Result<bool, Fail> {
    let (first, once) = answers(alloc, store, search)?;
    let mut once = once;
    let written = has_left(alloc, &mut once, left)?;
    let (second, twice) = answers(alloc, once, search)?;
    let mut twice = twice;
    Ok(first && written && second && has_left(alloc, &mut twice, left)?)
}

// Whether this is told of an index by looking into it, and by opening it twice.
fn is_told(alloc: Global, store: Store, wanted: Told) -> Result<bool, Fail> {
    let mut store = store;
    let seen = looked_into(alloc, &mut store)?;
    let (first, once) = reopened(alloc, store)?;
    let (second, _twice) = reopened(alloc, once)?;
    Ok(seen == wanted && first == wanted && second == wanted)
}

#[test]
fn two_merges(rt: HostRuntime) -> Result<(), Fail> {
    let alloc = rt.alloc();
    let told = is_told(alloc, merged(alloc)?, MERGED_TOLD)?;
    let stays = stays(alloc, merged(alloc)?, MERGED_FOUND, ((0, 330), 2, &[19]))?;
    assert_eq!(rt; (told, stays), (true, true));
    Ok(())
}

#[test]
fn a_merge_on_a_base(rt: HostRuntime) -> Result<(), Fail> {
    let alloc = rt.alloc();
    let told = is_told(alloc, merged_again(alloc, CALM)?, AGAIN_TOLD)?;
    let stays = stays(
        alloc,
        merged_again(alloc, CALM)?,
        AGAIN_FOUND,
        ((0, 348), 2, &[25]),
    )?;
    assert_eq!(rt; (told, stays), (true, true));
    Ok(())
}

// The open Begin of an index that is opened again.
fn begun(alloc: Global, front: &[u8], steps: &[Step]) -> Result<Option<u64>, Fail> {
    let bytes = log(alloc, front, steps)?;
    let base = text(alloc, NINETEEN)?;
    match open(alloc, stored(alloc, &bytes, &[(19, &base)], CALM)?)? {
        Ok(parts) => Ok(parts.begun),
        Err((why, _)) => Err(why.into()),
    }
}

// Fields, entries, and the position of the open Begin.
const BEGUN: [(&[u8], &[Step], Option<u64>); 5] = [
    (&LINE, &[Insert(1, 10)], None),
    (&LINE, &[Insert(1, 10), Begin, Replace(1, 20)], Some(1)),
    (&LINE, MERGED, None),
    (&BASED, &[Delete(3)], None),
    (
        &BASED,
        &[Delete(3), Insert(3, 30), Begin, Delete(4)],
        Some(13),
    ),
];

fn wrong_begun(alloc: Global) -> Result<Option<usize>, Fail> {
    for (row, (front, steps, wanted)) in BEGUN.iter().enumerate() {
        if begun(alloc, front, steps)? != *wanted {
            return Ok(Some(row));
        }
    }
    Ok(None)
}

#[test]
fn an_open_merge_stays_open(rt: HostRuntime) -> Result<(), Fail> {
    assert_eq!(rt; wrong_begun(rt.alloc())?, None);
    Ok(())
}
