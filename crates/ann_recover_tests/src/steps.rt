//! The steps of opening an index again, each by itself.

ghost use Rattle.std.specs.Prelude.{◌≡◌, IfOk, vec_len};

use crate::store::{Sealed, numbers, vault};
use crate::texts::{NINETEEN, text};
use ann_base::{open_base, open_below};
use ann_reopen::{Basis, Judged, Merge, judge};
use ann_resume::{cut_tail, remove_others};
use ann_tags::Tags;
use ann_types::{Entry, Params, Pid, Vector};
use ann_vault::{MemoryEye, MemoryVault};
use std::alloc::Global;
use std::test::Fail;

// The parameters of the line index.
fn params() -> Result<Params, Fail> {
    match Params::new(1, 2, 10, 1, 1, 1, 1, 100) {
        Some(params) => Ok(params),
        None => Err("no parameters".into()),
    }
}

// An insert of the tag 6, a merge of it that is replaced meanwhile, and a delete.
fn entries(alloc: Global) -> Result<Vec<Entry>, Fail>
    ensures { IfOk result (λ entries. vec_len entries ≡ 5) }
{
    let vector = Vector::copy(alloc, &[60])?;
    let other = Vector::copy(alloc, &[70])?;
    Ok(vec![in alloc;
        Entry::Insert {
            by: 0,
            tag: 6,
            vector
        },
        Entry::Begin { by: 1 },
        Entry::Replace {
            by: 2,
            tag: 6,
            vector: other
        },
        Entry::End { by: 1, segment: 25 },
        Entry::Delete { by: 0, tag: 6 },
    ]?)
}

// What they leave behind position 11 and Pid 4.
fn judged(alloc: Global, entries: &[Entry]) -> Result<Judged, Fail> {
    let basis = Basis {
        position: 11,
        next: 5,
        tags: Tags::new(alloc),
    };
    if entries.len() > 9 {
        return Err("too many".into());
    }
    Ok(judge(alloc, &params()?, basis, entries)?)
}

// The merge of these entries.
const MERGE: Merge = Merge {
    position: 12,
    end: 14,
    next: 6,
    segment: 25,
};

// Whether these Pids are deleted, of which one stands for none.
fn are_gone(gone: &[Option<Pid>], wanted: &[Option<Pid>]) -> bool {
    gone == wanted
}

// Whether this is what they leave.
fn is_judged(judged: &Judged) -> bool {
    judged.tags.count() == 0
        && judged.next == 7
        && judged.begun == None
        && judged.merge == Some(MERGE)
        && are_gone(&judged.gone, &[None, None, Some(5), None, Some(6)])
}

fn are_judged(alloc: Global) -> Result<bool, Fail> {
    let entries = entries(alloc)?;
    Ok(is_judged(&judged(alloc, &entries)?))
}

#[test]
fn a_list_is_judged(rt: HostRuntime) -> Result<(), Fail> {
    assert!(rt; are_judged(rt.alloc())?);
    Ok(())
}

// Whether these are the entries behind the merge's Begin, without its End.
fn are_behind(entries: &[Entry]) -> bool {
    match entries {
        [
            Entry::Replace { by, tag, vector },
            Entry::Delete { by: 0, tag: 6 },
        ] => { *by == 2 && *tag == 6 && vector.bytes() == [70].as_slice() }
        _ => false,
    }
}

// Whether these are what is left of the entries and of the Pids that they delete.
fn is_cut(alloc: Global) -> Result<bool, Fail> {
    let mut entries = entries(alloc)?;
    let mut gone = vec![in alloc; None, None, Some(5), None, Some(6)]?;
    cut_tail(11, &MERGE, &mut entries, &mut gone);
    Ok(are_behind(&entries) && are_gone(&gone, &[Some(5), Some(6)]))
}

#[test]
fn a_list_is_cut_at_its_merge(rt: HostRuntime) -> Result<(), Fail> {
    assert!(rt; is_cut(rt.alloc())?);
    Ok(())
}

// The Pids of four tags of the base on segment 19.
fn tags(alloc: Global, vault: &mut MemoryVault) -> Result<[Option<Pid>; 4], Fail> {
    let mut eye = MemoryEye::new(alloc, &[])?;
    let base = open_base(alloc, vault, &mut eye, &params()?, 19, 5)?;
    let tags = &base.tags;
    Ok([tags.get(2), tags.get(3), tags.get(4), tags.get(5)])
}

// Whether segment 19 is opened below a Pid.
fn is_below(alloc: Global, vault: &mut MemoryVault, next: Pid) -> Result<bool, Fail> {
    let mut eye = MemoryEye::new(alloc, &[])?;
    Ok(open_below(alloc, vault, &mut eye, &params()?, 19, next).is_ok())
}

// The tags, and whether it is opened below 4 and below 5.
fn grounded(alloc: Global) -> Result<([Option<Pid>; 4], bool, bool), Fail> {
    let bytes = text(alloc, NINETEEN)?;
    let mut vault = vault(alloc, &[(19, &bytes)], 0)?;
    let four = is_below(alloc, &mut vault, 4)?;
    let five = is_below(alloc, &mut vault, 5)?;
    Ok((tags(alloc, &mut vault)?, four, five))
}

#[test]
fn a_base_has_tags(rt: HostRuntime) -> Result<(), Fail> {
    let tags = [None, Some(2), Some(3), Some(4)];
    assert_eq!(rt; grounded(rt.alloc())?, (tags, false, true));
    Ok(())
}

// Whether these numbers are left of four where two are named.
fn leaves(alloc: Global, first: u64, second: u64, wanted: &[u64]) -> Result<bool, Fail> {
    let sealed: [Sealed; 4] = [(0, &[1]), (5, &[2]), (6, &[3]), (19, &[4])];
    let mut vault = vault(alloc, &sealed, 0)?;
    remove_others(alloc, &mut vault, first, second)?;
    Ok(numbers(alloc, &mut vault)?.as_slice() == wanted)
}

#[test]
fn what_nobody_names_is_removed(rt: HostRuntime) -> Result<(), Fail> {
    let alloc = rt.alloc();
    let left = (
        leaves(alloc, 19, 6, &[6, 19])?,
        leaves(alloc, 0, 5, &[5])?,
        leaves(alloc, 0, 0, &[])?,
    );
    assert_eq!(rt; left, (true, true, true));
    Ok(())
}
