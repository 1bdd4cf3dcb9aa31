// How an open merge goes on with its list. A law is a function that does nothing, whose contract is the law.
ghost use Rattle.std.specs.Prelude.{◌≡◌, ◌+◌, ◌*◌, ◌<◌, true, false, not, List, Option, Some};
ghost use Rattle.std.specs.List.{list_all};
ghost use Rattle.ann_types.specs.Index.{Index};
ghost use Rattle.ann_types.specs.Lists.{BasedList, with_entries, with_entry};
ghost use Rattle.ann_types.specs.Fold.{Begun, fold_of};
ghost use Rattle.ann_types.specs.Legal.{IsLegal, may_follow};
ghost use Rattle.ann_types.specs.declared.entry.Entry.{Entry};
ghost use Rattle.ann_laws.specs.Replays.{is_end};
ghost use Rattle.ann_segment.specs.Segment.{SegmentView};
ghost use Rattle.ann_named.specs.Named.{IsNamed};
ghost use Rattle.ann_mlaws.specs.Plan.{IsLti};
ghost use Rattle.ann_merge.specs.Job.{IsMergeOf, Order};
ghost use Rattle.ann_mbegin.specs.Begun.{IsJobOf, IsNumberedBelow};
ghost use Rattle.ann_mbegin.specs.Ended.{MayEndMerge};

use ann_vault::Sealed;

/// The segment that a list names has a lesser number than the one that its open merge makes, where a base's segment has a
/// lesser one than every merge after it.
pub fn numbering<S: Sealed>()
    ensures { (index : Index) (h : BasedList) (b : Begun) (segment : Option (SegmentView S))
        → IsLegal index h → h.base.segment < 2 * h.base.position + 1
        → (fold_of index h).begun ≡ Some b → IsNamed h segment
        → IsNumberedBelow (2 * b.position + 1) segment }
{}

/// A job stays that of the open Begin with each entry that is no End, and so does the graph that it begins with.
pub fn lasting<S: Sealed>()
    ensures job { (index : Index) (h : BasedList) (e : Entry) (order : Order S)
        → IsLegal index h → may_follow index.params h (fold_of index h) e ≡ true → is_end e ≡ false
        → IsJobOf index h order
        → IsJobOf index (with_entry h e) order }
    ensures lti { (index : Index) (h : BasedList) (e : Entry) (order : Order S)
        → IsLegal index h → may_follow index.params h (fold_of index h) e ≡ true → is_end e ≡ false
        → IsJobOf index h order → IsLti S.bytes index order.old (fold_of index h).lti
        → IsLti S.bytes index order.old (fold_of index (with_entry h e)).lti }
{}

/// And so they do with a frame of entries, none of which is an End.
pub fn lasting_all<S: Sealed>()
    ensures job { (index : Index) (h : BasedList) (es : List Entry) (order : Order S)
        → IsLegal index (with_entries h es) → list_all (λ e. not (is_end e)) es ≡ true
        → IsJobOf index h order
        → IsJobOf index (with_entries h es) order }
    ensures lti { (index : Index) (h : BasedList) (es : List Entry) (order : Order S)
        → IsLegal index (with_entries h es) → list_all (λ e. not (is_end e)) es ≡ true
        → IsJobOf index h order → IsLti S.bytes index order.old (fold_of index h).lti
        → IsLti S.bytes index order.old (fold_of index (with_entries h es)).lti }
{}

/// The segment that a list's job makes may end its merge.
pub fn ending<S: Sealed>()
    ensures { (index : Index) (h : BasedList) (order : Order S) (segment : SegmentView S)
        → IsLegal index h → IsJobOf index h order → IsMergeOf S.tells S.bytes order segment
        → MayEndMerge S.tells S.bytes index h order segment }
{}
