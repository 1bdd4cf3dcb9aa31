ghost use Rattle.std.specs.Prelude.{◌≡◌};
ghost use Rattle.std.specs.List.{AllByRecursion};
ghost use Rattle.std.specs.Int.{abs_diff};

use ann_pool::{Item, Pool};
use std::alloc::{AllocError, Global};
use std::test::Fail;

/// Offers numbers, each as far as it is from 5.
fn offer_each(pool: &mut Pool, numbers: &[u32])
    requires { AllByRecursion (λ item. item.distance ≡ abs_diff item.number 5) pool.old.items }
    ensures { AllByRecursion (λ item. item.distance ≡ abs_diff item.number 5) pool.new.items }
{
    for number in numbers {
        pool.offer(number.abs_diff(5), *number);
    }
}

/// How many items there may be, the numbers that are offered, and those that are visited, in order of visit.
const LEAST: [(u16, &[u32], &[u32]); 7] = [
    (3, &[9, 2, 6], &[6, 2, 9]),
    // Of equally far ones the smaller number stands first.
    (3, &[6, 4, 5], &[5, 4, 6]),
    // The third has no place, or takes one.
    (2, &[6, 4, 7], &[4, 6]),
    (2, &[6, 4, 5], &[5, 4]),
    // What has left doesn't come back, and no number is there twice.
    (2, &[9, 4, 6, 9], &[4, 6]),
    (2, &[6, 6, 4, 6], &[4, 6]),
    (1, &[], &[]),
];

// Whether the next item to visit is of this number, as far as it is from 5, and is known.
fn is_next(pool: &mut Pool, number: u32) -> bool {
    let next = Item {
        distance: number.abs_diff(5),
        number,
        visited: false,
    };
    pool.next_unvisited() == Some(next) && pool.has_met(number)
}

// Whether a row of the table holds.
fn are_least(pool: &mut Pool, limit: u16, numbers: &[u32], least: &[u32]) -> bool {
    pool.clear(limit.clamp(1, 1000));
    offer_each(pool, numbers);
    if pool.items().len() != least.len() {
        return false;
    }
    for number in least {
        if !is_next(pool, *number) {
            return false;
        }
    }
    pool.next_unvisited().is_none()
}

// The first row of the table that doesn't hold.
fn wrong_row(alloc: Global) -> Result<Option<usize>, AllocError> {
    let mut pool = Pool::with_room(alloc)?;
    for (row, (limit, numbers, least)) in LEAST.iter().enumerate() {
        if !are_least(&mut pool, *limit, numbers, least) {
            return Ok(Some(row));
        }
    }
    Ok(None)
}

#[test]
fn keeps_and_visits_the_least(rt: HostRuntime) -> Result<(), Fail> {
    assert_eq!(rt; wrong_row(rt.alloc())?, None);
    Ok(())
}

// Whether this is an item of this number.
fn is_of(item: Option<Item>, number: u32) -> bool {
    match item {
        Some(item) => item.number == number,
        None => false,
    }
}

// Visits the next item, and says whether it is of this number.
fn visits(pool: &mut Pool, number: u32) -> bool
    requires { AllByRecursion (λ item. item.distance ≡ abs_diff item.number 5) pool.old.items }
    ensures { AllByRecursion (λ item. item.distance ≡ abs_diff item.number 5) pool.new.items }
{
    let next = pool.next_unvisited();
    is_of(next, number)
}

// Whether of two items the farther one is visited, then one that came nearer, and then none.
fn visits_the_later_one(pool: &mut Pool) -> bool {
    pool.clear(2);
    offer_each(pool, &[6, 9]);
    let first = visits(pool, 6);
    offer_each(pool, &[5, 6]);
    let second = visits(pool, 5);
    first && second && pool.next_unvisited().is_none() && are_visited(pool.items())
}

fn are_visited(items: &[Item]) -> bool {
    for item in items {
        if !item.visited {
            return false;
        }
    }
    true
}

#[test]
fn visits_a_nearer_one_that_comes_later(rt: HostRuntime) -> Result<(), Fail> {
    let mut pool = Pool::with_room(rt.alloc())?;
    assert!(rt; visits_the_later_one(&mut pool));
    Ok(())
}
