//! Laws of lists of entries that upper crates need: a list with an End is a list on the graph that its merge made; and
//! which entries may follow is judged without the graphs.
#![tactic(auto)]

ghost use Rattle.std.specs.Prelude.{◌≡◌, true};
ghost use Rattle.std.specs.List.{list_any};
ghost use Rattle.ann_types.specs.Index.{Index};
ghost use Rattle.ann_types.specs.Lists.{BasedList, IsBaseOf};
ghost use Rattle.ann_types.specs.Legal.{IsLegal, is_legal};
ghost use Rattle.ann_laws.specs.Outlines.{legal_from_base};
ghost use Rattle.ann_laws.specs.Replays.{is_end, LastMerge, rebased, StandsForList};

/// The replay law: each legal list with an End has another in its place, on the graph of its last merge.
pub fn replay()
    ensures { (index : Index) (h : BasedList) → IsLegal index h → list_any is_end h.entries ≡ true
        → (m : LastMerge h) × StandsForList index h (rebased index h m.before m.inside m.segment m.behind) }
{}

/// Which lists are legal is judged without graphs.
#[tactic(auto, using(crate::proofs::Outlined::legal_by_is))]
pub fn judging()
    ensures { (index : Index) (h : BasedList) → IsBaseOf index.params h.base
        → is_legal index h ≡ legal_from_base index.params h }
{}
