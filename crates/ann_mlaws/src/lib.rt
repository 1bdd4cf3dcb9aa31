//! Laws of the merge: a plan that is made row by row is one that can be patched, and by the Pids it is the
//! merge of the definition (StreamingMerge of FreshDiskANN, section 5.3).
#![tactic(auto)]

ghost use Rattle.std.specs.Prelude.{ℕ, List, Option};
ghost use Rattle.ann_types.specs.Graph.{Graph};
ghost use Rattle.ann_types.specs.Index.{Index};
ghost use Rattle.ann_types.specs.declared.new_point.NewPoint.{NewPoint};
ghost use Rattle.ann_segment.specs.Segment.{SegmentView};
ghost use Rattle.ann_mpatch.specs.Plan.{IsPlan};
ghost use Rattle.ann_mpatch.specs.declared.plan.PatchPlan.{PatchPlan};
ghost use Rattle.ann_mlaws.specs.Plan.{IsLti, IsMergePlan};
ghost use Rattle.ann_mlaws.specs.Rows.{IsPlanned, MayMerge};

use ann_vault::Sealed;

/// The laws of plans. What the phases make row by row can be patched, and where the seal tells its bytes it
/// is by the Pids what the definition's phases make of the graph that the old segment holds.
pub fn planning<S: Sealed>()
    ensures sound { (index : Index) (dead : List ℕ) (old : Option (SegmentView S)) (points : List NewPoint)
        (plan : PatchPlan S) (entry : Option ℕ)
        → MayMerge index old points → IsPlanned S.tells S.bytes index dead old points plan entry
        → IsPlan plan }
    ensures merged { S.tells
        → (index : Index) (dead : List ℕ) (old : Option (SegmentView S)) (points : List NewPoint)
        (plan : PatchPlan S) (entry : Option ℕ) (lti : Graph)
        → MayMerge index old points → IsPlanned S.tells S.bytes index dead old points plan entry
        → IsLti S.bytes index old lti
        → IsMergePlan index lti points dead plan entry }
{}
