// Applying entries to a view.
ghost use Rattle.std.specs.Prelude.{◌≡◌, ◌<◌, ◌+◌, ◌^◌, false, length, IfOk, OnOk};
ghost use Rattle.ann_types.specs.Lists.{BasedList, with_entry, with_entries};
ghost use Rattle.ann_view.specs.Stands.{StandsFor, lti_of};
ghost use Rattle.ann_view.specs.Holding.{HoldsGraph};
ghost use Rattle.ann_resume.specs.Applied.{IsNext, AreNext, CanMake, IsMadeOf, IsSameIndex};

use ann_types::{Entry, Pid, Vector};
use ann_vault::Sealed;
use ann_view::{Op, View};
use std::alloc::{AllocError, Global};

/// Applies legal entries to a view, one after the other. None of them is an End. With each entry stands the Pid that it
/// deletes.
///
/// The only error is want of memory. Some of the entries may then be applied.
pub(crate) fn apply_all<S: Sealed>(
    alloc: Global,
    view: &mut View<S>,
    entries: &[Entry],
    gone: &[Option<Pid>],
) -> Result<(), AllocError>
    requires open { view.old.closed ≡ false }
    requires room { view.old.at + length entries.now < 2 ^ 64 }
    requires next { (h : BasedList) × AreNext view.old h entries.now gone.now }
    // A view that stands for a list stands for the list with these entries.
    ensures stands { (h : BasedList) → AreNext view.old h entries.now gone.now →
        OnOk result (StandsFor view.new (with_entries h entries.now)) }
    // Where its segment holds the list's long-term graph, it does so afterwards.
    ensures holds { (h : BasedList) → AreNext view.old h entries.now gone.now →
        HoldsGraph S.bytes view.old (lti_of view.old h) →
        OnOk result (HoldsGraph S.bytes view.new (lti_of view.new (with_entries h entries.now))) }
    ensures index { IsSameIndex view.old view.new }
{
    for index in 0..entries.len() {
        apply(alloc, view, &entries[index], gone[index])?;
    }
    Ok(())
}

// Applies a legal entry to a view.
fn apply<S: Sealed>(
    alloc: Global,
    view: &mut View<S>,
    entry: &Entry,
    gone: Option<Pid>,
) -> Result<(), AllocError>
    requires open { view.old.closed ≡ false }
    requires room { view.old.at + 1 < 2 ^ 64 }
    requires next { (h : BasedList) × IsNext view.old h entry.now gone }
    ensures stands { (h : BasedList) → IsNext view.old h entry.now gone →
        OnOk result (StandsFor view.new (with_entry h entry.now)) }
    ensures holds { (h : BasedList) → IsNext view.old h entry.now gone →
        HoldsGraph S.bytes view.old (lti_of view.old h) →
        OnOk result (HoldsGraph S.bytes view.new (lti_of view.new (with_entry h entry.now))) }
    ensures at { OnOk result (view.new.at ≡ view.old.at + 1) }
    ensures index { IsSameIndex view.old view.new }
{
    let op = operation(alloc, entry, gone)?;
    view.apply(&op)
}

// The operation of an entry that deletes this Pid, if it deletes one.
fn operation<S: Sealed>(
    alloc: Global,
    entry: &Entry,
    gone: Option<Pid>,
) -> Result<Op<S>, AllocError>
    requires { CanMake entry.now gone }
    ensures { IfOk result (IsMadeOf entry.now gone) }
{
    match entry {
        Entry::Insert { by: _, tag, vector } => Ok(Op::Insert {
            tag: *tag,
            vector: Vector::copy(alloc, vector.bytes())?,
        }),
        Entry::Delete { by: _, tag: _ } => {
            let Some(pid) = gone else { unreachable!() };
            Ok(Op::Delete { pid })
        }
        Entry::Begin { by: _ } => Ok(Op::Begin),
        Entry::End { by: _, segment: _ } => unreachable!(),
        Entry::Replace { by: _, tag, vector } => {
            let Some(gone) = gone else { unreachable!() };
            Ok(Op::Replace {
                tag: *tag,
                gone,
                vector: Vector::copy(alloc, vector.bytes())?,
            })
        }
    }
}
