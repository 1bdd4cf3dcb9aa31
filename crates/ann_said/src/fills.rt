// What the line of a fill is worth.
ghost use Rattle.std.specs.Prelude.{◌≡◌, ℕ, ◌+◌, ◌*◌, ◌<◌, ◌≤◌, List, Some, length, map};
ghost use Rattle.ann_types.specs.Index.{Index};
ghost use Rattle.ann_types.specs.Lists.{BasedList, upto, with_entries, length_of};
ghost use Rattle.ann_types.specs.Judge.{Refusal, entry_of, judge_all};
ghost use Rattle.ann_types.specs.declared.change.Change.{Change};
ghost use Rattle.ann_script.specs.Generator.{batch_of};
ghost use Rattle.ann_script.specs.Order.{Fill};
ghost use Rattle.ann_transcript.specs.declared.reply.UpdateWord.{UpdateWord};
ghost use Rattle.ann_transcript.specs.declared.reply.UpdateWord.TheVariants.{Stopped, MemoryLogged};
ghost use Rattle.ann_transcript.specs.declared.reply.Reply.TheVariants.{Filled, Cut};
ghost use Rattle.ann_reply.specs.Reply.{word_of};
ghost use Rattle.ann_said.specs.Owned.{reach};
ghost use Rattle.ann_said.specs.Table.{AreFirst};
ghost use Rattle.ann_said.specs.Said.{line};
ghost use Rattle.ann_said.specs.Knowing.{Known, with_more, Learns, HasOwn};
ghost use Rattle.ann_said.specs.Knowing.{HasOwnCause, SaysNext, MakesSoFar};

/// A fill that is under way: the first of its inserts were accepted, in whole updates but for the last one, and the last
/// insert is at the end of a prefix of the told list.
pub fn filling()
    ensures first { (index : Index) (h0 : BasedList) (known : Known) (seed first : ℕ)
        → MakesSoFar index h0 known 0 (AreFirst index known.client seed first 0) }
    ensures next { (index : Index) (h0 before : BasedList) (known : Known)
        (seed count first updates at : ℕ) (batch : List Change)
        → batch ≡ batch_of index.params.d seed count first updates → 64 * updates ≤ count
        → HasOwn h0 known.told known.client (known.entries + (64 * updates + length batch)) at
        → upto known.told at ≡ with_entries before (map (entry_of known.client) batch)
        → MakesSoFar index h0 known (64 * updates) (AreFirst index known.client seed first (64 * updates))
        → MakesSoFar index h0 known (64 * updates + length batch)
        (AreFirst index known.client seed first (64 * updates + length batch)) }
    ensures end { (index : Index) (h0 before : BasedList) (known : Known) (done at : ℕ) (batch : List Change)
        → 1 ≤ length batch
        → HasOwn h0 known.told known.client (known.entries + (done + length batch)) at
        → upto known.told at ≡ with_entries before (map (entry_of known.client) batch)
        → MakesSoFar index h0 known (done + length batch) (λ ps. reach ps ≡ at) }
    ensures learned { (index : Index) (h0 : BasedList) (old new : Known) (seed first done : ℕ)
        → Learns old new → MakesSoFar index h0 old done (AreFirst index old.client seed first done)
        → MakesSoFar index h0 new done (AreFirst index new.client seed first done) }
    ensures end_learned { (index : Index) (h0 : BasedList) (old new : Known) (done at : ℕ)
        → Learns old new → MakesSoFar index h0 old done (λ ps. reach ps ≡ at)
        → MakesSoFar index h0 new done (λ ps. reach ps ≡ at) }
{}

/// All inserts of a fill were accepted.
pub fn filled()
    ensures { (index : Index) (h0 : BasedList) (known : Known) (seed count first at : ℕ)
        → 1 ≤ count → at ≤ length_of known.told
        → MakesSoFar index h0 known count (AreFirst index known.client seed first count)
        → MakesSoFar index h0 known count (λ ps. reach ps ≡ at)
        → SaysNext index h0 known (with_more known count)
        (line (Fill seed count first) (Filled count at) count) }
{}

/// An update of a fill was refused, behind others that were accepted.
pub fn cutting()
    ensures judged { (index : Index) (h0 : BasedList) (known : Known) (seed count first updates : ℕ)
        (place : ℕ) (why : Refusal) (at : ℕ)
        → 64 * updates < count
        → HasOwn h0 known.told known.client (known.entries + 64 * updates) at
        → judge_all index.params (upto known.told at) known.client
        (batch_of index.params.d seed count first updates) ≡ Some (place, why)
        → MakesSoFar index h0 known (64 * updates) (AreFirst index known.client seed first (64 * updates))
        → SaysNext index h0 known (with_more known (64 * updates))
        (line (Fill seed count first) (Cut (64 * updates) (word_of place why at)) (64 * updates)) }
    ensures caused { (index : Index) (h0 : BasedList) (known : Known) (seed count first updates at : ℕ)
        (why : UpdateWord)
        → 64 * updates < count → HasOwnCause why → at ≤ length_of known.told
        → MakesSoFar index h0 known (64 * updates) (AreFirst index known.client seed first (64 * updates))
        → MakesSoFar index h0 known (64 * updates) (λ ps. reach ps ≡ at)
        → SaysNext index h0 known (with_more known (64 * updates))
        (line (Fill seed count first) (Cut (64 * updates) why) (64 * updates)) }
    ensures stopped { (index : Index) (h0 : BasedList) (known : Known) (seed count first updates at last : ℕ)
        → 64 * updates < count → known.stop ≡ last + 1 → at ≤ length_of known.told
        → MakesSoFar index h0 known (64 * updates) (AreFirst index known.client seed first (64 * updates))
        → MakesSoFar index h0 known (64 * updates) (λ ps. reach ps ≡ at)
        → SaysNext index h0 known (with_more known (64 * updates))
        (line (Fill seed count first) (Cut (64 * updates) (Stopped last)) (64 * updates)) }
    ensures logged { (index : Index) (h0 : BasedList) (known : Known) (seed count first updates at last : ℕ)
        (batch : List Change)
        → 64 * updates < count → batch ≡ batch_of index.params.d seed count first updates
        → at ≤ length_of known.told
        → MakesSoFar index h0 known (64 * updates) (AreFirst index known.client seed first (64 * updates))
        → MakesSoFar index h0 known (64 * updates) (λ ps. reach ps ≡ at)
        → SaysNext index h0 known (with_more known (64 * updates + length batch))
        (line (Fill seed count first) (Cut (64 * updates) (MemoryLogged last))
        (64 * updates + length batch)) }
{}
