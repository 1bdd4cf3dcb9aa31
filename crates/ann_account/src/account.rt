ghost use Rattle.std.specs.Prelude.{◌≡◌, ℕ, ◌≤◌, ◌+◌, ◌-◌, ◌<◌, ◌^◌, ◌∷◌, [], None, false, drop, length, not, true, List, OnOk, MatchOption};
ghost use Rattle.std.specs.FinMap.{get};
ghost use Rattle.std.specs.List.{list_all};
ghost use Rattle.ann_types.specs.Index.{Index};
ghost use Rattle.ann_types.specs.Lists.{BasedList, live_of};
ghost use Rattle.ann_types.specs.declared.entry.Entry.TheVariants.{End};
ghost use Rattle.ann_laws.specs.Replays.{is_end};
ghost use Rattle.ann_judge.specs.Standing.{KnowsOf};
ghost use Rattle.ann_reopen.specs.Gone.{gone_by};
ghost use Rattle.ann_view.specs.declared.op.Op.{Op as Operation};
ghost use Rattle.ann_types.specs.Legal.{pid_end};
ghost use Rattle.ann_account.specs.Account.{IsAccountOf, HasRoom, IsSameBut};
ghost use Rattle.ann_account.specs.Entered.{added, entered, waits, MayEnter};
ghost use Rattle.ann_account.specs.Steps.{CanNote, IsNoted, HoldsMerge, MayEndWith, StillLead};

use crate::operation::operation;
use ann_judge::Standing;
use ann_segment::Segment;
use ann_tags::Tags;
use ann_types::{Entry, Params, Pid, Tag};
use ann_vault::Sealed;
use ann_view::Op;
use std::alloc::{AllocError, Global};
use std::marker::Model;
use std::sync::Arc;

/// What there is to know of a list of entries beside its state, and what of it isn't shown yet.
#[derive(Drop)]
pub struct Account<S: Sealed> {
    at: u64,
    next: Pid,
    begun: Option<u64>,
    tags: Tags,
    waiting: Vec<Op<S>>,
}

impl<S: Sealed> Model for Account<S> {
    ghost use Rattle.std.specs.Prelude.{◌≤◌, vec_capacity};
    ghost use Rattle.ann_types.specs.Legal.{pid_end};
    ghost use Rattle.std.specs.Coded.{codes};
    ghost use Rattle.ann_tags.specs.Tags.{shown_code};
    ghost use Rattle.ann_account.specs.Account.{AccountView};

    ghost Value = { AccountView S };

    ghost coded = { Prim.hlevel (codes, shown_code) };

    ghost view = { λ a. record {
      at = a.at;
      next = a.next;
      begun = a.begun;
      tags = a.tags;
      waiting = a.waiting.items;
      room = vec_capacity a.waiting;
    } };

    // The next Pid has four bytes.
    ghost invariant = { λ a. a.next ≤ pid_end };
}

impl<S: Sealed> Account<S> {
    /// The account of a list of this length, next Pid, open Begin and live tags, all of which is shown.
    pub fn new(alloc: Global, at: u64, next: Pid, begun: Option<u64>, tags: Tags) -> Account<S>
        ensures at { result.at ≡ at }
        ensures next { result.next ≡ next }
        ensures begun { result.begun ≡ begun }
        ensures tags { result.tags ≡ tags }
        ensures shown { result.waiting ≡ [] }
    {
        Account {
            at,
            next,
            begun,
            tags,
            waiting: Vec::new(alloc),
        }
    }

    /// The length of the list.
    pub fn at(&self) -> u64
        ensures { result ≡ self.now.at }
    {
        self.at
    }

    /// The position of the open Begin, if there is one.
    pub fn begun(&self) -> Option<u64>
        ensures { result ≡ self.now.begun }
    {
        self.begun
    }

    /// How many tags are live.
    pub fn live(&self) -> u64
        ensures { (index : Index) (h : BasedList) → CanNote index h [] self.now →
            result ≡ length (live_of h) }
    {
        self.tags.count()
    }

    /// What there is to know of the list to judge an update.
    pub fn standing<'a>(&'a self, params: &'a Params) -> Standing<'a>
        ensures params { result.params.now ≡ params.now }
        ensures knows { (index : Index) (h : BasedList) → IsAccountOf index h self.now → KnowsOf h result }
        ensures small { self.now.next ≤ pid_end }
    {
        Standing {
            params,
            tags: &self.tags,
            next: self.next,
        }
    }

    /// Makes room to note so many entries. The only error is want of memory.
    pub fn reserve(&mut self, count: u32) -> Result<(), AllocError>
        ensures room { OnOk result (HasRoom count self.new) }
        ensures same { IsSameBut self.old self.new }
    {
        self.tags.reserve(count)?;
        self.waiting.reserve(count as usize)?;
        Ok(())
    }

    /// The first operation that isn't shown yet, if there is one.
    pub fn unshown(&self) -> Option<&Op<S>>
        ensures { MatchOption result (self.now.waiting ≡ [])
            (λ op. (rest : List (Operation S)) × (self.now.waiting ≡ op.now ∷ rest)) }
    {
        self.waiting.first()
    }

    /// The first operation is shown. It was there.
    pub fn showed(&mut self)
        requires { 0 < length self.old.waiting }
        ensures rest { self.new.waiting ≡ drop 1 self.old.waiting }
        ensures same { self.new ≡ record self.old { waiting = self.new.waiting } }
    {
        let _shown = self.waiting.remove(0);
    }

    /// Notes an entry that was logged, and isn't an End. Takes no memory.
    pub fn note(&mut self, entry: Entry)
        requires room { HasRoom 1 self.old }
        requires end { is_end entry ≡ false }
        requires long { self.old.at < 2 ^ 64 - 1 }
        requires legal { (index : Index) × (h : BasedList) × CanNote index h (entry ∷ []) self.old }
        ensures noted { (index : Index) (h : BasedList) → CanNote index h (entry ∷ []) self.old →
            IsNoted index h (entry ∷ []) self.old self.new }
        ensures brings { (index : Index) (h : BasedList) → CanNote index h (entry ∷ []) self.old →
            StillLead S.bytes index h (entry ∷ []) self.old self.new }
        ensures room { (more : ℕ) → HasRoom (more + 1) self.old → HasRoom more self.new }
        ensures at { self.new.at ≡ self.old.at + 1 }
    {
        let gone = self.gone(&entry);
        self.enter(&entry);
        self.wait(operation(entry, gone));
    }

    /// Notes entries that were logged, in order; none of them is an End. Takes no memory.
    pub fn note_all(&mut self, entries: Vec<Entry>)
        requires room { HasRoom (length entries.items) self.old }
        requires ends { list_all (λ e. not (is_end e)) entries.items ≡ true }
        requires long { self.old.at + length entries.items < 2 ^ 64 }
        requires legal { (index : Index) × (h : BasedList) × CanNote index h entries.items self.old }
        ensures noted { (index : Index) (h : BasedList) → CanNote index h entries.items self.old →
            IsNoted index h entries.items self.old self.new }
        ensures brings { (index : Index) (h : BasedList) → CanNote index h entries.items self.old →
            StillLead S.bytes index h entries.items self.old self.new }
    {
        let mut entries = entries;
        while entries.len() > 0 {
            let entry = entries.remove(0);
            self.note(entry);
        }
    }

    /// Notes the End of the open merge, whose segment this is. Takes no memory.
    pub fn note_end(&mut self, by: u32, segment: Arc<Segment<S>>)
        requires room { HasRoom 1 self.old }
        requires long { self.old.at < 2 ^ 64 - 1 }
        ensures noted { (index : Index) (h : BasedList) → MayEndWith index h by segment.value self.old →
            IsNoted index h (End by segment.value.number ∷ []) self.old self.new }
        ensures brings { (index : Index) (h : BasedList) → MayEndWith index h by segment.value self.old →
            HoldsMerge S.bytes index h segment.value →
            StillLead S.bytes index h (End by segment.value.number ∷ []) self.old self.new }
        ensures at { self.new.at ≡ self.old.at + 1 }
    {
        let number = segment.number();
        self.enter(&Entry::End {
            by,
            segment: number,
        });
        self.wait(Op::End { segment });
    }

    // One operation more waits to be shown.
    fn wait(&mut self, op: Op<S>)
        requires { length self.old.waiting < self.old.room }
        ensures { self.new ≡ waits self.old op }
    {
        self.waiting.push_reserved(op);
    }

    // The Pid that an entry deletes, if it deletes one.
    fn gone(&self, entry: &Entry) -> Option<Pid>
        ensures { result ≡ gone_by self.now.tags.pids entry.now }
    {
        match entry {
            Entry::Delete { tag, .. } => self.tags.get(*tag),
            Entry::Replace { tag, .. } => self.tags.get(*tag),
            Entry::Insert { .. } => None,
            Entry::Begin { .. } => None,
            Entry::End { .. } => None,
        }
    }

    // Takes an entry into the account of the list; it doesn't wait yet.
    fn enter(&mut self, entry: &Entry)
        requires fits { MayEnter self.old entry.now }
        ensures { self.new ≡ entered self.old entry.now }
    {
        match entry {
            Entry::Insert { tag, .. } => self.add(*tag),
            Entry::Delete { tag, .. } => self.tags.remove(*tag),
            Entry::Replace { tag, .. } => {
                self.tags.remove(*tag);
                self.add(*tag);
            }
            Entry::Begin { .. } => self.begun = Some(self.at),
            Entry::End { .. } => self.begun = None,
        }
        self.at += 1;
    }

    // A tag is live now, with the next Pid.
    fn add(&mut self, tag: Tag)
        requires room { 1 ≤ self.old.tags.spare }
        requires pid { self.old.next < pid_end }
        requires absent { get self.old.tags.pids tag ≡ None }
        ensures { self.new ≡ added self.old tag }
    {
        self.tags.insert(tag, self.next);
        self.next += 1;
    }
}
