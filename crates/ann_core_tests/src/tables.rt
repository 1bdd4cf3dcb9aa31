//! Tables of events.

use crate::events::{Do, core, event_of, first_other, tell};
use Do::{
    Begin, Delete, End, Enter, Insert, Inserts, Leave, Piece, Remove, Reply, Seal, Show, Switch,
    Wide,
};
use std::test::Fail;

// A frame is answered once it is shown and the reader has come in again.
const SHOWN: [(Do, &str); 7] = [
    (Insert(7, 10), "done"),
    (Enter(0), "done"),
    (Show, "done"),
    (Reply(0, 10), "at 0:"),
    (Leave(0), "done"),
    (Enter(0), "done"),
    (Reply(0, 10), "at 1: 7:0"),
];

// What isn't allowed at first, and of readers.
const REFUSED: [(Do, &str); 19] = [
    (Reply(0, 10), "no"),
    (Leave(0), "no"),
    (Piece(0), "no"),
    (Seal, "no"),
    (Switch, "no"),
    (Remove(1), "no"),
    (Begin, "no"),
    (End(1), "no"),
    (Delete(7), "no"),
    (Enter(32), "no"),
    (Leave(32), "no"),
    (Reply(32, 10), "no"),
    (Enter(31), "done"),
    (Enter(31), "no"),
    (Wide(31), "no"),
    (Reply(31, 10), "at 0:"),
    (Leave(31), "done"),
    (Leave(31), "no"),
    (Show, "done"),
];

// A frame has 1 to 64 entries.
const FRAMES: [(Do, &str); 5] = [
    (Inserts(0), "no"),
    (Inserts(65), "no"),
    (Inserts(64), "done"),
    (Inserts(1), "no"),
    (Insert(64, 9), "done"),
];

// A merge, in which a point is deleted; and a second one, whose old segment is removed once nobody has pinned it.
const MERGES: [(Do, &str); 38] = [
    (Insert(7, 10), "done"),
    (Insert(8, 20), "done"),
    (Begin, "done"),
    (Begin, "no"),
    (Delete(7), "done"),
    (Switch, "no"),
    (Seal, "no"),
    (Piece(1), "no"),
    (Piece(0), "done"),
    (Piece(0), "no"),
    (Switch, "no"),
    (Seal, "done"),
    (Seal, "no"),
    (Piece(0), "no"),
    (Remove(5), "no"),
    (Switch, "done"),
    (Switch, "no"),
    (Show, "done"),
    (Enter(3), "done"),
    (Reply(3, 10), "at 5: 8:100"),
    (Insert(9, 30), "done"),
    (Begin, "done"),
    (Seal, "no"),
    (Piece(0), "done"),
    (Seal, "done"),
    (Switch, "done"),
    (Remove(5), "no"),
    (Show, "done"),
    (Remove(5), "no"),
    (Reply(3, 10), "at 5: 8:100"),
    (Enter(4), "done"),
    (Reply(4, 30), "at 8: 9:0 8:100"),
    (Leave(3), "done"),
    (Remove(13), "no"),
    (Remove(5), "done"),
    (Remove(5), "no"),
    (Reply(4, 10), "at 8: 8:100 9:400"),
    (Seal, "no"),
];

// A table is met.
fn is_met(other: Option<String>) -> Result<(), Fail> {
    match other {
        Some(told) => Err(Fail::from(told)),
        None => Ok(()),
    }
}

#[test]
fn readers_see_what_is_shown(rt: HostRuntime) -> Result<(), Fail> {
    is_met(first_other(&rt, rt.alloc(), &SHOWN)?)
}

#[test]
fn events_are_refused(rt: HostRuntime) -> Result<(), Fail> {
    is_met(first_other(&rt, rt.alloc(), &REFUSED)?)
}

#[test]
fn frames_have_their_sizes(rt: HostRuntime) -> Result<(), Fail> {
    is_met(first_other(&rt, rt.alloc(), &FRAMES)?)
}

#[test]
fn merges_end_and_segments_are_removed(rt: HostRuntime) -> Result<(), Fail> {
    is_met(first_other(&rt, rt.alloc(), &MERGES)?)
}

#[test]
fn a_run_gives_its_steps(rt: HostRuntime) -> Result<(), Fail> {
    let alloc = rt.alloc();
    let mut core = core(alloc)?;
    let mut events = Vec::new(alloc);
    for (what, _wanted) in &SHOWN {
        events.push(event_of(alloc, *what)?)?;
    }
    let steps = core.run(&rt, alloc, &events)?;
    for (step, (_what, wanted)) in steps.items().iter().zip(&SHOWN) {
        if tell(alloc, step)?.as_str() != *wanted {
            return Err("another step".into());
        }
    }
    Ok(())
}
