// Numbers that a list doesn't name, and what a vault holds whatever becomes of them.
ghost use Rattle.std.specs.Prelude.{◌≡◌, ◌≢◌, ◌<◌, ◌+◌, ◌*◌, [], ◌∷◌, ℕ, List, Some};
ghost use Rattle.ann_types.specs.Codes.{Book};
ghost use Rattle.ann_types.specs.Index.{Index};
ghost use Rattle.ann_types.specs.Lists.{BasedList, with_entries};
ghost use Rattle.ann_types.specs.Legal.{IsLegal};
ghost use Rattle.ann_types.specs.declared.entry.Entry.{Entry};
ghost use Rattle.ann_types.specs.declared.entry.Entry.TheVariants.{End};
ghost use Rattle.ann_types.specs.declared.params.Params.{Params};
ghost use Rattle.ann_vault.specs.Held.{Holding, MayBeRemoved};
ghost use Rattle.ann_segment.specs.Segment.{SegmentView};
ghost use Rattle.ann_state.specs.State.{AreKept};
ghost use Rattle.ann_merge.specs.Job.{KeepsNumbers, Order};
ghost use Rattle.ann_mbegin.specs.Begun.{IsJobOf};
ghost use Rattle.ann_kept.specs.Unnamed.{IsRetired, IsUnnamed};

use ann_vault::Sealed;

/// What a vault holds for a list, it holds whatever becomes of a number that the list doesn't name.
pub fn keeping()
    ensures others { (params : Params) (book : Book) (h : BasedList) (number : ℕ) (old new : Holding)
        → IsUnnamed h number → KeepsNumbers number old new
        → AreKept old params book h → AreKept new params book h }
    // So it is where the number is removed, or may be.
    ensures removed { (params : Params) (book : Book) (h : BasedList) (number : ℕ) (old new : Holding)
        → IsUnnamed h number → MayBeRemoved number old new
        → AreKept old params book h → AreKept new params book h }
{}

/// A list doesn't name the number of its open merge, where its base's segment has a lesser number than every merge after it.
pub fn working<S: Sealed>()
    ensures { (index : Index) (h : BasedList) (order : Order S)
        → IsLegal index h → h.base.segment < 2 * h.base.position + 1 → IsJobOf index h order
        → IsUnnamed h order.number }
{}

/// An End retires the old segment of its merge, unless the base names it, and what is retired stays so.
pub fn retiring<S: Sealed>()
    ensures ended { (index : Index) (h : BasedList) (order : Order S) (segment : SegmentView S) (by : ℕ)
        → IsLegal index h → h.base.segment < 2 * h.base.position + 1 → IsJobOf index h order
        → order.old ≡ Some segment → h.base.segment ≢ segment.number
        → IsRetired index (with_entries h (End by order.number ∷ [])) segment.number }
    ensures stays { (index : Index) (h : BasedList) (es : List Entry) (number : ℕ)
        → IsLegal index (with_entries h es) → IsRetired index h number
        → IsRetired index (with_entries h es) number }
{}
