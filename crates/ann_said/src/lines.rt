// What one more line of a client is worth.
ghost use Rattle.std.specs.Prelude.{◌≡◌, ℕ, ◌+◌, ◌<◌, ◌≤◌, Bool, List, [], Some, length, map, get_or};
ghost use Rattle.ann_types.specs.Index.{Index};
ghost use Rattle.ann_types.specs.Lists.{BasedList, upto, with_entries, length_of};
ghost use Rattle.ann_types.specs.Fold.{fold_of};
ghost use Rattle.ann_types.specs.Judge.{Refusal, entry_of, judge_all};
ghost use Rattle.ann_types.specs.Answer.{hits};
ghost use Rattle.ann_types.specs.declared.change.Change.{Change};
ghost use Rattle.ann_script.specs.Order.{Apply, Find};
ghost use Rattle.ann_transcript.specs.declared.reply.UpdateWord.{UpdateWord};
ghost use Rattle.ann_transcript.specs.declared.reply.UpdateWord.TheVariants.{Stopped, MemoryLogged};
ghost use Rattle.ann_transcript.specs.declared.reply.SearchWord.{SearchWord};
ghost use Rattle.ann_transcript.specs.declared.reply.Reply.TheVariants.{Update, Found, Search};
ghost use Rattle.ann_reply.specs.Reply.{accepted, word_of};
ghost use Rattle.ann_said.specs.Owned.{own};
ghost use Rattle.ann_said.specs.Table.{IsUnanswered};
ghost use Rattle.ann_said.specs.Said.{Line, line, Part, SaysAll, AllSay};
ghost use Rattle.ann_said.specs.Knowing.{Known, known_first, with_more, Learns, HasOwn};
ghost use Rattle.ann_said.specs.Knowing.{HasOwnCause, MayLeave, IsSaidSoFar, SaysNext};

/// Before a client's first command nothing is said, and it knows the list with which the run began.
pub fn starting()
    ensures { (index : Index) (h0 : BasedList) (client : ℕ)
        → IsSaidSoFar index h0 (known_first client h0) [] }
{}

/// What a client has said stays right as it learns more of the list.
pub fn learning()
    ensures { (index : Index) (h0 : BasedList) (old new : Known) (lines : List Line)
        → Learns old new → IsSaidSoFar index h0 old lines → IsSaidSoFar index h0 new lines }
{}

/// A search is answered at the list that its client has then seen, which must cover what it was told.
pub fn finding()
    ensures { (index : Index) (h0 : BasedList) (known : Known) (k l : ℕ) (vector : List ℕ)
        → length_of known.told ≤ length_of known.seen
        → SaysNext index h0 known known (line (Find k l vector)
        (Found (length_of known.seen) (hits index (fold_of index known.seen) k l vector)) 0) }
{}

/// An update is refused by a prefix of the list that its client was told.
pub fn judging()
    ensures { (index : Index) (h0 : BasedList) (known : Known) (changes : List Change) (batch : Bool)
        (place : ℕ) (why : Refusal) (at : ℕ)
        → HasOwn h0 known.told known.client known.entries at
        → judge_all index.params (upto known.told at) known.client changes ≡ Some (place, why)
        → SaysNext index h0 known known
        (line (Apply changes batch) (Update (word_of place why at) batch) 0) }
{}

/// An update is accepted: its changes are the last entries of a prefix of the list that its client was told.
pub fn accepting()
    ensures { (index : Index) (h0 before : BasedList) (known : Known) (changes : List Change) (batch : Bool)
        (at : ℕ)
        → HasOwn h0 known.told known.client (known.entries + length changes) at
        → upto known.told at ≡ with_entries before (map (entry_of known.client) changes)
        → SaysNext index h0 known (with_more known (length changes))
        (line (Apply changes batch) (accepted changes batch at) (length changes)) }
{}

/// A command that made no entry and has its own cause.
pub fn failing()
    ensures update { (index : Index) (h0 : BasedList) (known : Known) (changes : List Change) (batch : Bool)
        (why : UpdateWord) → HasOwnCause why
        → SaysNext index h0 known known (line (Apply changes batch) (Update why batch) 0) }
    ensures search { (index : Index) (h0 : BasedList) (known : Known) (k l : ℕ) (vector : List ℕ)
        (why : SearchWord) → IsUnanswered index vector why
        → SaysNext index h0 known known (line (Find k l vector) (Search why) 0) }
{}

/// Where the log has stopped the client knows the length of the list that the run leaves.
pub fn stopping()
    ensures { (index : Index) (h0 : BasedList) (known : Known) (changes : List Change) (batch : Bool)
        (at : ℕ) → known.stop ≡ at + 1
        → SaysNext index h0 known known (line (Apply changes batch) (Update (Stopped at) batch) 0) }
{}

/// An update that was logged, and then there was no memory to show it.
pub fn logging()
    ensures { (index : Index) (h0 : BasedList) (known : Known) (changes : List Change) (batch : Bool) (at : ℕ)
        → SaysNext index h0 known (with_more known (length changes))
        (line (Apply changes batch) (Update (MemoryLogged at) batch) (length changes)) }
{}

/// A client's lines are whole in the list that the run leaves, where all its entries are those that it knows of; and so are
/// those of all clients, one by one.
pub fn closing()
    ensures client { (index : Index) (h0 h : BasedList) (known : Known) (lines : List Line)
        → IsSaidSoFar index h0 known lines → MayLeave index h0 known h
        → known.entries ≡ length (own h0 h known.client) → SaysAll index h0 h known.client lines }
    ensures all { (index : Index) (h0 h : BasedList) (parts : List Part)
        → ((i : ℕ) (p : Part) → i < length parts → SaysAll index h0 h i (get_or parts i p).lines)
        → AllSay index h0 h 0 parts }
{}
