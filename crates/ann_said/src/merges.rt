// What the line of a merge is worth.
ghost use Rattle.std.specs.Prelude.{◌≡◌, ℕ, ◌+◌, ◌≤◌, List, [], ◌∷◌, ◌++◌, Some, None, false};
ghost use Rattle.ann_types.specs.Index.{Index};
ghost use Rattle.ann_types.specs.Lists.{BasedList, upto, with_entry};
ghost use Rattle.ann_types.specs.Fold.{Begun, fold_of};
ghost use Rattle.ann_types.specs.Legal.{has_work};
ghost use Rattle.ann_types.specs.declared.entry.Entry.{Entry};
ghost use Rattle.ann_types.specs.declared.entry.Entry.TheVariants.{Begin, End};
ghost use Rattle.ann_script.specs.Order as order;
ghost use Rattle.ann_transcript.specs.declared.reply.MergeWord.{MergeWord};
ghost use Rattle.ann_transcript.specs.declared.reply.MergeWord.TheVariants.{Merged, Nothing, Running, Stopped};
ghost use Rattle.ann_transcript.specs.declared.reply.MergeWord.TheVariants.{MemoryLogged};
ghost use Rattle.ann_transcript.specs.declared.reply.Reply.TheVariants.{Merge};
ghost use Rattle.ann_said.specs.Owned.{own, entries_of};
ghost use Rattle.ann_said.specs.Table.{MayBegin};
ghost use Rattle.ann_said.specs.Said.{line};
ghost use Rattle.ann_said.specs.Knowing.{Known, with_more, Learns, HasOwn};
ghost use Rattle.ann_said.specs.Knowing.{MergeHasOwnCause, SaysNext, MakesSoFar};

/// A merge that is under way has made no entry, or the Begin with which a prefix of the told list ends, or its client's
/// entries there.
pub fn merging()
    ensures first { (index : Index) (h0 : BasedList) (known : Known)
        → MakesSoFar index h0 known 0 (MayBegin known.client) }
    ensures begun { (index : Index) (h0 before : BasedList) (known : Known) (at : ℕ)
        → HasOwn h0 known.told known.client (known.entries + 1) at
        → upto known.told at ≡ with_entry before (Begin known.client)
        → MakesSoFar index h0 known 1 (MayBegin known.client) }
    // Others' entries may stand behind it.
    ensures last { (index : Index) (h0 : BasedList) (known : Known) (before : List Entry) (at : ℕ)
        → HasOwn h0 known.told known.client (known.entries + 1) at
        → entries_of (own h0 (upto known.told at) known.client) ≡ before ++ Begin known.client ∷ []
        → MakesSoFar index h0 known 1 (MayBegin known.client) }
    ensures learned { (index : Index) (h0 : BasedList) (old new : Known) (count : ℕ) → Learns old new
        → MakesSoFar index h0 old count (MayBegin old.client)
        → MakesSoFar index h0 new count (MayBegin new.client) }
{}

/// A merge has ended: its End is the last entry of a prefix of the told list.
pub fn merged()
    ensures { (index : Index) (h0 before : BasedList) (known : Known) (count segment at : ℕ)
        → MakesSoFar index h0 known count (MayBegin known.client)
        → HasOwn h0 known.told known.client (known.entries + (count + 1)) at
        → upto known.told at ≡ with_entry before (End known.client segment)
        → SaysNext index h0 known (with_more known (count + 1))
        (line order.Merge (Merge (Merged segment at)) (count + 1)) }
{}

/// A prefix of the told list had nothing to merge, or an open merge.
pub fn idling()
    ensures nothing { (index : Index) (h0 : BasedList) (known : Known) (at : ℕ)
        → HasOwn h0 known.told known.client known.entries at
        → (fold_of index (upto known.told at)).begun ≡ None
        → has_work (fold_of index (upto known.told at)) ≡ false
        → SaysNext index h0 known known (line order.Merge (Merge (Nothing at)) 0) }
    ensures running { (index : Index) (h0 : BasedList) (known : Known) (at : ℕ) (begun : Begun)
        → HasOwn h0 known.told known.client known.entries at
        → (fold_of index (upto known.told at)).begun ≡ Some begun
        → SaysNext index h0 known known (line order.Merge (Merge (Running at begun.position)) 0) }
{}

/// A merge that was given back, before or behind its Begin.
pub fn giving_back()
    ensures caused { (index : Index) (h0 : BasedList) (known : Known) (count : ℕ) (word : MergeWord)
        → MergeHasOwnCause word → MakesSoFar index h0 known count (MayBegin known.client)
        → SaysNext index h0 known (with_more known count) (line order.Merge (Merge word) count) }
    ensures stopped { (index : Index) (h0 : BasedList) (known : Known) (count at : ℕ)
        → known.stop ≡ at + 1 → MakesSoFar index h0 known count (MayBegin known.client)
        → SaysNext index h0 known (with_more known count) (line order.Merge (Merge (Stopped at)) count) }
    ensures logged { (index : Index) (h0 : BasedList) (known : Known) (count at : ℕ)
        → 1 ≤ count → count ≤ 2
        → SaysNext index h0 known (with_more known count) (line order.Merge (Merge (MemoryLogged at)) count) }
{}
