// What a vault holds behind the End of a merge.
ghost use Rattle.std.specs.Prelude.{◌≡◌, ◌≤◌, [], ◌∷◌, ℕ};
ghost use Rattle.ann_types.specs.Index.{Index, IsBookOf};
ghost use Rattle.ann_types.specs.Lists.{BasedList, next_pid, with_entries};
ghost use Rattle.ann_types.specs.Fold.{fold_of};
ghost use Rattle.ann_types.specs.Legal.{IsLegal, pid_end};
ghost use Rattle.ann_types.specs.declared.entry.Entry.TheVariants.{End};
ghost use Rattle.ann_vault.specs.Held.{Holding};
ghost use Rattle.ann_segment.specs.Segment.{SegmentView};
ghost use Rattle.ann_state.specs.State.{AreKept};
ghost use Rattle.ann_mlaws.specs.Plan.{IsLti};
ghost use Rattle.ann_merge.specs.Job.{IsDone, Order};
ghost use Rattle.ann_mbegin.specs.Begun.{IsJobOf};

use ann_vault::Sealed;

/// A vault that holds what a list names, and the segment that the list's job has made, holds what the list with the End of
/// that merge names.
pub fn ending<S: Sealed>()
    ensures { (index : Index) (h : BasedList) (order : Order S) (segment : SegmentView S)
        (held : Holding) (by : ℕ)
        → S.tells → IsBookOf index.params index.book
        → IsLegal index h → next_pid h ≤ pid_end
        → IsJobOf index h order → IsLti S.bytes index order.old (fold_of index h).lti
        → IsDone S.tells S.bytes order held segment
        → AreKept held index.params index.book h
        → AreKept held index.params index.book (with_entries h (End by order.number ∷ [])) }
{}
