use ann_dead::{Dead, DeadPin, Deleted};
use std::alloc::{AllocError, Global};
use std::test::Fail;

// A value that may go to another thread and be shared by several.
fn shared<T: Send + Sync>(value: T) -> T {
    value
}

fn is_dead<D: Deleted>(set: &D, pid: u32) -> bool {
    set.contains(pid)
}

// The first multiples of a number, the greatest first and each added twice.
fn multiples(alloc: Global, step: u32, count: u32) -> Result<Dead, AllocError> {
    let mut dead = Dead::new(alloc);
    for number in (0..count).rev() {
        let pid = number.wrapping_mul(step);
        dead.add(pid)?;
        dead.add(pid)?;
    }
    Ok(dead)
}

// Whether the set, the copy and the pin of `wrong_pid` tell of a Pid what they should.
fn is_told(dead: &Dead, copy: &Dead, pin: &DeadPin, pid: u32) -> bool {
    let was = pid % 4 == 0 && pid < 1600;
    let stays = was && !(pid % 12 == 0 && pid < 1200);
    is_dead(pin, pid) == was
        && is_dead(copy, pid) == stays
        && dead.contains(pid) == (stays || pid == 1600)
}

fn first_untold(dead: &Dead, copy: &Dead, pin: &DeadPin) -> Option<u32> {
    for pid in 0..1700 {
        if !is_told(dead, copy, pin, pid) {
            return Some(pid);
        }
    }
    None
}

// Takes the multiples of 12 below 1200 out of a set.
fn remove_twelves(alloc: Global, dead: &mut Dead) -> Result<(), AllocError> {
    let removed = multiples(alloc, 12, 100)?;
    dead.remove_all(&removed)
}

// The first Pid that is told wrongly once 1600 was added behind a copy.
fn wrong_beside_a_copy(dead: &mut Dead, pin: &DeadPin) -> Result<Option<u32>, AllocError> {
    let copy = shared(dead.copy()?);
    dead.add(1600)?;
    Ok(first_untold(dead, &copy, pin))
}

// Of 400 multiples of 4 those of 12 below 1200 are removed, and then 1600 is added: the first Pid of which the set, a copy
// from before the last step or a pin from before both tell something else.
fn wrong_pid(alloc: Global) -> Result<Option<u32>, AllocError> {
    let mut dead = multiples(alloc, 4, 400)?;
    let pin = shared(dead.pin()?);
    remove_twelves(alloc, &mut dead)?;
    wrong_beside_a_copy(&mut dead, &pin)
}

#[test]
fn a_pin_keeps_its_set(rt: HostRuntime) -> Result<(), Fail> {
    assert_eq!(rt; wrong_pid(rt.alloc())?, None);
    Ok(())
}

// Takes all Pids out of a set.
fn remove_itself(dead: &mut Dead) -> Result<(), AllocError> {
    let same = dead.copy()?;
    dead.remove_all(&same)
}

// Whether an empty set has a Pid once it is added, and none once that is removed.
fn is_filled_and_emptied(dead: &mut Dead) -> Result<bool, AllocError> {
    let was = dead.is_empty() && !dead.contains(0);
    dead.add(7)?;
    let filled = !dead.is_empty() && dead.contains(7);
    remove_itself(dead)?;
    Ok(was && filled && dead.is_empty() && !dead.contains(7))
}

#[test]
fn a_set_without_its_pids_is_empty(rt: HostRuntime) -> Result<(), Fail> {
    let mut dead = Dead::new(rt.alloc());
    assert!(rt; is_filled_and_emptied(&mut dead)?);
    Ok(())
}
