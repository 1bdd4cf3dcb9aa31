// A list of entries, opened as an index is that is opened again.
ghost use Rattle.std.specs.Prelude.{◌≡◌, ◌++◌, IfOk, OnOk};
ghost use Rattle.ann_types.specs.Index.{Index};
ghost use Rattle.ann_reopen.specs.Judged.{IsVerdict};
ghost use Rattle.ann_core_laws.specs.State.{logged, last_end};
ghost use Rattle.ann_core.specs.Kept.{texts_of, held_for};
ghost use Rattle.ann_vault.specs.Held.{Holding};
ghost use Rattle.ann_core.specs.Opened.{IsOpened, IsRead};

use crate::ends::last_end_of;
use crate::kept::{Kept, vault_with};
use ann_pq::Codebook;
use ann_preamble::Base;
use ann_reopen::{Basis, JudgeRefused, Judged, judge};
use ann_resume::resume;
use ann_segment::Segment;
use ann_state::{ListState, State, open_merged, state_of};
use ann_tags::Tags;
use ann_types::{Entry, Params, Vector};
use ann_vault::{MemoryEye, MemorySeal};
use ann_view::View;
use std::alloc::{AllocError, Global};

/// What a list of entries leaves.
#[derive(Drop)]
pub(crate) struct Opened {
    /// The view of the list.
    pub(crate) view: View<MemorySeal>,
    /// The position of its open Begin, if there is one.
    pub(crate) begun: Option<u64>,
}

/// An entry once more. The only error is want of memory.
fn copy_entry(alloc: Global, entry: &Entry) -> Result<Entry, AllocError>
    ensures { IfOk result (λ copy. copy ≡ entry.now) }
{
    Ok(match entry {
        Entry::Insert { by, tag, vector } => Entry::Insert {
            by: *by,
            tag: *tag,
            vector: Vector::copy(alloc, vector.bytes())?,
        },
        Entry::Delete { by, tag } => Entry::Delete { by: *by, tag: *tag },
        Entry::Begin { by } => Entry::Begin { by: *by },
        Entry::End { by, segment } => Entry::End {
            by: *by,
            segment: *segment,
        },
        Entry::Replace { by, tag, vector } => Entry::Replace {
            by: *by,
            tag: *tag,
            vector: Vector::copy(alloc, vector.bytes())?,
        },
    })
}

/// Adds entries once more. The only error is want of memory, and some of them may then be added.
pub(crate) fn copy_all(
    alloc: Global,
    entries: &[Entry],
    out: &mut Vec<Entry>,
) -> Result<(), AllocError>
    ensures { OnOk result (out.new.items ≡ out.old.items ++ entries.now) }
{
    for entry in entries {
        out.push(copy_entry(alloc, entry)?)?;
    }
    Ok(())
}

/// Judges a list of entries on the empty base.
pub(crate) fn judge_list(
    alloc: Global,
    params: &Params,
    entries: &[Entry],
) -> Result<Judged, JudgeRefused>
    ensures { (index : Index) → index.params ≡ params.now → IsVerdict index (logged entries.now) result }
{
    let basis = Basis {
        position: 0,
        next: 0,
        tags: Tags::new(alloc),
    };
    judge(alloc, params, basis, entries)
}

/// Opens a legal list, whose last End names a kept segment. The only error is want of memory: the vault and its eye are in
/// memory, and fail for that alone.
pub(crate) fn open_list(
    alloc: Global,
    params: &Params,
    book: &Codebook,
    kept: &[Kept],
    entries: &[Entry],
) -> Result<Opened, AllocError>
    requires sizes { (book.now.d ≡ params.now.d) × (book.now.m ≡ params.now.m) }
    ensures { IfOk result (λ opened. IsOpened
        (held_for (texts_of kept.now) (last_end entries.now)) params.now book.now entries.now opened) }
{
    let mut all = Vec::new(alloc);
    copy_all(alloc, entries, &mut all)?;
    let mut vault = vault_with(alloc, kept, last_end_of(entries))?;
    let mut eye = MemoryEye::new(alloc, &[])?;
    let Ok(judged) = judge_list(alloc, params, &all) else {
        return Err(AllocError);
    };
    let Ok(merged) = open_merged(alloc, &mut vault, &mut eye, params, judged.merge) else {
        return Err(AllocError);
    };
    resume_list(alloc, params, book, judged, merged, all)
}

/// Makes the view of a list that was judged, with the segment of its last merge.
fn resume_list(
    alloc: Global,
    params: &Params,
    book: &Codebook,
    judged: Judged,
    merged: Option<Segment<MemorySeal>>,
    entries: Vec<Entry>,
) -> Result<Opened, AllocError>
    requires sizes { (book.now.d ≡ params.now.d) × (book.now.m ≡ params.now.m) }
    requires known { (held : Holding) × IsRead held params.now entries.items judged merged }
    ensures { (held : Holding) → IsRead held params.now entries.items judged merged →
        IfOk result (IsOpened held params.now book.now entries.items) }
{
    let base = Base {
        position: 0,
        next: 0,
        segment: 0,
    };
    let list = ListState {
        segment: None,
        judged,
    };
    let state = state_of(&base, list, merged, entries);
    let State {
        start,
        entries,
        gone,
        tags: _,
        begun,
    } = state;
    let view = resume(alloc, params, book.copy()?, start, &entries, &gone)?;
    Ok(Opened { view, begun })
}
