//! Laws of the segment that holds the long-term graph of a list: which one that is, and that its points are older than
//! those which an open merge leaves behind.
#![tactic(auto)]

ghost use Rattle.std.specs.Prelude.{◌≡◌, ◌+◌, ◌*◌, ◌<◌, ℕ, true, false, not, List, Option, Some};
ghost use Rattle.std.specs.List.{list_all, list_any};
ghost use Rattle.ann_types.specs.Index.{Index};
ghost use Rattle.ann_types.specs.Lists.{BasedList, bare, next_pid, with_entries, with_entry};
ghost use Rattle.ann_types.specs.Fold.{Begun, fold_of};
ghost use Rattle.ann_types.specs.Legal.{IsLegal, may_follow};
ghost use Rattle.ann_types.specs.declared.entry.Entry.{Entry};
ghost use Rattle.ann_types.specs.declared.entry.Entry.TheVariants.{End};
ghost use Rattle.ann_laws.specs.Replays.{is_end, HasMerge, with_only};
ghost use Rattle.ann_segment.specs.Segment.{SegmentView};
ghost use Rattle.ann_named.specs.Named.{named_in, IsNamed, AreBelow, IsCurrent};

use ann_vault::Sealed;

/// The segment of a list's base is the current one until an End stands in the list.
pub fn starting<S: Sealed>()
    ensures { (index : Index) (h : BasedList) (segment : Option (SegmentView S))
        → list_any is_end h.entries ≡ false
        → IsNamed (bare h.base) segment → AreBelow h.base.next segment
        → IsCurrent index h segment }
{}

/// The current segment stays the current one with each entry that is no End.
pub fn staying<S: Sealed>()
    ensures { (index : Index) (h : BasedList) (e : Entry) (segment : Option (SegmentView S))
        → IsLegal index h → may_follow index.params h (fold_of index h) e ≡ true → is_end e ≡ false
        → IsCurrent index h segment
        → IsCurrent index (with_entry h e) segment }
{}

/// And so it does with a frame of entries, none of which is an End.
pub fn staying_all<S: Sealed>()
    ensures { (index : Index) (h : BasedList) (es : List Entry) (segment : Option (SegmentView S))
        → IsLegal index (with_entries h es) → list_all (λ e. not (is_end e)) es ≡ true
        → IsCurrent index h segment
        → IsCurrent index (with_entries h es) segment }
{}

/// An End makes the segment that it names the current one.
pub fn ending<S: Sealed>()
    ensures { (index : Index) (h : BasedList) (by : ℕ) (segment : SegmentView S)
        → may_follow index.params h (fold_of index h) (End by segment.number) ≡ true
        → AreBelow (next_pid h) (Some segment)
        → IsCurrent index (with_entry h (End by segment.number)) (Some segment) }
{}

/// The segment of the last merge that has ended in a list is the current one, where its points are older than the Begin of
/// that merge.
pub fn merged<S: Sealed>()
    ensures { (index : Index) (h : BasedList) (before inside behind : List Entry) (segment : SegmentView S)
        → IsLegal index h → HasMerge h before inside segment.number behind
        → AreBelow (next_pid (with_only h before)) (Some segment)
        → IsCurrent index h (Some segment) }
{}

/// A segment's number is by the position of the Begin of its merge, so the one that a list names is below that of an open
/// merge, where that is so of its base.
#[tactic(auto, using(crate::proofs::Numbers::named_older))]
pub fn numbering()
    ensures { (index : Index) (h : BasedList) (b : Begun)
        → IsLegal index h → h.base.segment < 2 * h.base.position + 1
        → (fold_of index h).begun ≡ Some b
        → named_in h < 2 * b.position + 1 }
{}
