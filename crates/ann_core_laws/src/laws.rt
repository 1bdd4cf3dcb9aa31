// The laws of the table of events.
ghost use Rattle.std.specs.Prelude.{◌≡◌, ◌≢◌, ◌≤◌, ◌<◌, ℕ, List, [], ◌∷◌, ◌++◌, false, IsTrue, Option, Some, All, MatchOption, map, take};
ghost use Rattle.ann_types.specs.Order.{has};
ghost use Rattle.ann_types.specs.Index.{Index};
ghost use Rattle.ann_types.specs.Lists.{upto, length_of};
ghost use Rattle.ann_types.specs.Fold.{Begun};
ghost use Rattle.ann_types.specs.Answer.{answer};
ghost use Rattle.ann_types.specs.declared.ask.Ask.{Ask};
ghost use Rattle.ann_types.specs.declared.hit.Hit.{Hit};
ghost use Rattle.ann_core_laws.specs.State.{CoreState, first_state, logged, graph_in, last_end, open_begin, pieces_of, segment_of};
ghost use Rattle.ann_core_laws.specs.Events.{core_step, pin_of, state_after};
ghost use Rattle.ann_core_laws.specs.Facts.{CoreFacts, made_graph};
ghost use Rattle.ann_core_laws.specs.declared.event.Event.{Event};
ghost use Rattle.ann_core_laws.specs.declared.event.Event.TheVariants.{Piece, Remove, Reply, Seal};
ghost use Rattle.ann_core_laws.specs.declared.step.Step.TheVariants.{Answered, Done};

/// The core facts are true at first, and every event keeps them, so they are true after every list of events.
pub fn keeping()
    ensures first { (index : Index) → CoreFacts index first_state }
    ensures each { (index : Index) (c : CoreState) (e : Event) → CoreFacts index c
        → CoreFacts index (core_step index c e).0 }
    ensures all { (index : Index) (c : CoreState) (events : List Event) → CoreFacts index c
        → CoreFacts index (state_after index c events) }
{}

/// A reply stands at what its reader has pinned, and is the answer of that prefix of the list, although its long-term graph
/// is taken from the kept segments alone.
pub fn answering()
    ensures { (index : Index) (c : CoreState) (reader : ℕ) (ask : Ask) (at : ℕ) (hits : List Hit)
        → CoreFacts index c → (core_step index c (Reply reader ask)).1 ≡ Answered at hits
        → (pin_of c reader ≡ Some (Some at))
        × (length_of (upto (logged c.list) at) ≡ at)
        × (hits ≡ answer index (upto (logged c.list) at) ask) }
{}

/// A segment that is removed isn't one that a pinned prefix names.
pub fn removing()
    ensures { (index : Index) (c : CoreState) (number : ℕ)
        → (core_step index c (Remove number)).1 ≡ Done
        → All (λ (pin : Option ℕ). MatchOption pin (Unit {0})
        (λ n. last_end (take n c.list) ≢ Some number)) c.pins }
{}

/// What a reader has pinned is never before what it had pinned earlier, though it may have gone and come in between.
pub fn pinning()
    ensures { (index : Index) (c : CoreState) (events : List Event) (reader n m : ℕ)
        → CoreFacts index c → pin_of c reader ≡ Some (Some n)
        → pin_of (state_after index c events) reader ≡ Some (Some m) → n ≤ m }
{}

/// Pieces that are finished in any order seal the merged graph: after events that finish pieces, each piece at least once, a
/// Seal keeps it.
pub fn sealing()
    ensures { (index : Index) (c : CoreState) (b : Begun) (order : List ℕ)
        → CoreFacts index c → open_begin index c ≡ Some b → c.sealed ≡ false
        → ((n : ℕ) → n < pieces_of (made_graph index c.list).points → IsTrue (has order n))
        → graph_in (state_after index c (map Piece order ++ Seal ∷ [])).kept (segment_of b)
        ≡ Some (made_graph index c.list) }
{}
