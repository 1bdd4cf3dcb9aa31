ghost use Rattle.std.specs.Prelude.{◌≡◌, ◌<◌, ◌≤◌, ◌%◌, ◌^◌, length};

use crate::rows::{line, params, vectors};
use ann_mdelete::{Loaded, repair_piece};
use std::alloc::{AllocError, Global};
use std::test::Fail;

// The survivors' lists of the piece from this row on, in a line of so many rows, whose components are these.
fn repaired(alloc: Global, components: &[u8], gone: &[bool], first: u32) -> Result<Loaded, Fail>
    requires rows { length gone.now ≡ length components.now }
    requires few { length components.now < 2 ^ 32 }
    requires piece { first % 256 ≡ 0 }
    requires first { first < length components.now }
{
    let lists = line(alloc, components.len() as u32)?;
    let decoded = vectors(alloc, components)?;
    let mut piece = Loaded::new(alloc)?;
    repair_piece(&lists, &decoded, gone, first, &params()?, &mut piece)?;
    Ok(piece)
}

#[test]
fn two_points_are_linked_through_a_deleted_one(rt: HostRuntime) -> Result<(), Fail> {
    let piece = repaired(rt.alloc(), &[10, 20, 30], &[false, true, false], 0)?;
    let linked = piece.count() == 2
        && piece.list(0) == [2].as_slice()
        && piece.list(1) == [0].as_slice();
    assert!(rt; linked);
    Ok(())
}

#[test]
fn lists_without_deleted_neighbours_stay(rt: HostRuntime) -> Result<(), Fail> {
    let gone = [true, false, false, false];
    let piece = repaired(rt.alloc(), &[10, 20, 30, 40], &gone, 0)?;
    let stays = piece.count() == 3
        && piece.list(0) == [2].as_slice()
        && piece.list(1) == [1, 3].as_slice()
        && piece.list(2) == [2].as_slice();
    assert!(rt; stays);
    Ok(())
}

#[test]
fn nothing_is_left_where_all_are_deleted(rt: HostRuntime) -> Result<(), Fail> {
    let piece = repaired(rt.alloc(), &[1, 2, 3], &[true, true, true], 0)?;
    assert!(rt; piece.count() == 0);
    Ok(())
}

// How many lists the last piece of a line of 255, 256 or 257 rows has.
fn last_piece(alloc: Global, rows: usize, first: u32) -> Result<u32, Fail>
    requires rows { (0 < rows) × (rows ≤ 1000) }
    requires piece { first % 256 ≡ 0 }
    requires first { first < rows }
{
    let components = vec![in alloc; 7; rows]?;
    let gone = vec![in alloc; false; rows]?;
    Ok(repaired(alloc, &components, &gone, first)?.count())
}

#[test]
fn a_piece_has_256_rows(rt: HostRuntime) -> Result<(), Fail> {
    let alloc = rt.alloc();
    let one = last_piece(alloc, 1, 0)?;
    let less = last_piece(alloc, 255, 0)?;
    let full = last_piece(alloc, 256, 0)?;
    let first = last_piece(alloc, 257, 0)?;
    let second = last_piece(alloc, 257, 256)?;
    assert!(rt; one == 1 && less == 255 && full == 256 && first == 256 && second == 1);
    Ok(())
}
