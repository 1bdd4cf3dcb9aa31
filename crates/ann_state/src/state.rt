// What an index is resumed from.
ghost use Rattle.std.specs.Prelude.{◌≡◌, ◌<◌, ◌+◌, ◌^◌, true, vec_len};
ghost use Rattle.ann_types.specs.declared.params.Params.{Params};
ghost use Rattle.ann_preamble.specs.Base.{is_base};
ghost use Rattle.ann_vault.specs.Held.{Holding};
ghost use Rattle.ann_state.specs.List.{IsListState, list_on};
ghost use Rattle.ann_state.specs.Merged.{IsMerged};
ghost use Rattle.ann_resume.specs.Cut.{StandsIn};
ghost use Rattle.ann_state.specs.Start.{start_at, IsOnBase, IsOnMerge};
ghost use Rattle.ann_state.specs.State.{IsState};

use crate::list::ListState;
use ann_preamble::Base;
use ann_reopen::{Judged, Merge};
use ann_resume::{Start, cut_tail};
use ann_segment::Segment;
use ann_tags::Tags;
use ann_types::{Entry, Pid};
use ann_vault::Sealed;

/// What an index is resumed from.
#[derive(Drop)]
pub struct State<S: Sealed> {
    /// The base of the view, none for the empty one: the last merge that ended, or else the log's base.
    pub start: Option<Start<S>>,
    /// The entries that follow, none of them an End.
    pub entries: Vec<Entry>,
    /// For each of these entries the Pid that it deletes, if it deletes one.
    pub gone: Vec<Option<Pid>>,
    /// The live tags.
    pub tags: Tags,
    /// The position of the open Begin, if there is one.
    pub begun: Option<u64>,
}

/// What an index is resumed from, by what reading its list has left, the segment of its last merge and its entries. Takes no
/// memory.
pub fn state_of<S: Sealed>(
    base: &Base,
    list: ListState<S>,
    merged: Option<Segment<S>>,
    entries: Vec<Entry>,
) -> State<S>
    requires base { is_base base.now ≡ true }
    requires room { base.now.position + vec_len entries < 2 ^ 63 }
    requires known { (held : Holding) × (params : Params)
        × IsListState S.tells S.bytes held params base.now entries.items list
        × IsMerged S.tells S.bytes held params list.judged.merge merged }
    ensures { (held : Holding) (params : Params)
        → (is : IsListState S.tells S.bytes held params base.now entries.items list)
        → IsMerged S.tells S.bytes held params list.judged.merge merged
        → IsState S.tells S.bytes held params
        (list_on base.now is.graph entries.items) list.judged.merge result }
{
    let ListState { segment, judged } = list;
    match judged.merge {
        None => on_base(base, segment, judged, entries),
        Some(merge) => on_merge(base, merge, merged, judged, entries),
    }
}

// The state of all entries on the base.
fn on_base<S: Sealed>(
    base: &Base,
    segment: Option<Segment<S>>,
    judged: Judged,
    entries: Vec<Entry>,
) -> State<S>
    requires { base.now.next < 2 ^ 32 }
    ensures { IsOnBase base.now segment judged entries.items result }
{
    State {
        start: start_at(base.position, base.next as u32, segment),
        entries,
        gone: judged.gone,
        tags: judged.tags,
        begun: judged.begun,
    }
}

// The state of the entries behind the Begin of the last merge, without its End.
fn on_merge<S: Sealed>(
    base: &Base,
    merge: Merge,
    merged: Option<Segment<S>>,
    judged: Judged,
    entries: Vec<Entry>,
) -> State<S>
    requires merge { StandsIn base.now.position merge (vec_len entries) }
    requires many { vec_len judged.gone ≡ vec_len entries }
    requires room { merge.position < 2 ^ 63 }
    ensures { IsOnMerge base.now merge merged judged entries.items result }
{
    let mut entries = entries;
    let mut gone = judged.gone;
    cut_tail(base.position, &merge, &mut entries, &mut gone);
    State {
        start: start_at(merge.position + 2, merge.next, merged),
        entries,
        gone,
        tags: judged.tags,
        begun: judged.begun,
    }
}

// A base with these numbers, if there is a segment.
fn start_at<S: Sealed>(at: u64, next: Pid, segment: Option<Segment<S>>) -> Option<Start<S>>
    ensures { result ≡ start_at at next segment }
{
    match segment {
        None => None,
        Some(segment) => Some(Start { at, next, segment }),
    }
}
