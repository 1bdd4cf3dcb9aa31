ghost use Rattle.std.specs.Prelude.{◌≡◌, ◌≤◌, ◌<◌, ◌+◌, ◌-◌, ◌^◌, length, IfOk, OnOk};
ghost use Rattle.ann_types.specs.Lists.{BasedList, live_of, empty_list};
ghost use Rattle.ann_types.specs.declared.change.Change.TheVariants.{Insert, Delete, Replace};
ghost use Rattle.ann_judge.specs.Standing.{KnowsOf};
ghost use Rattle.ann_script.specs.Order.{Apply, Find};
ghost use Rattle.ann_once.specs.Session.{Keeps, Accepts, AcceptsAll, Makes, MakesAll, Replies, Follows};

use crate::book::zero_book;
use ann_beam::{Desk, SearchRefused};
use ann_judge::Standing;
use ann_reply::{accepted, copied, word_of};
use ann_script::{Reply, SearchWord};
use ann_tags::Tags;
use ann_types::{Ask, Change, Params, Tag, Vector};
use ann_vault::MemorySeal;
use ann_view::{Op, View};
use std::alloc::{AllocError, Global};
use std::sync::Arc;

/// An index in memory for one client: a view, which has no segment, and the Pids of the live tags.
///
/// It keeps a list of entries, which contracts name: what the view and the tags are is what the definitions give for
/// that list.
#[derive(Drop)]
pub(crate) struct Session {
    params: Params,
    view: View<MemorySeal>,
    tags: Tags,
    desk: Desk,
}

impl Session {
    /// A session of the empty list. The only error is want of memory.
    pub(crate) fn new(alloc: Global, params: &Params) -> Result<Session, AllocError>
        requires code { params.now.m ≡ 1 }
        ensures params { IfOk result (λ session. session.params ≡ params.now) }
        ensures kept { IfOk result (Keeps empty_list) }
    {
        let book = Arc::new(alloc, zero_book(alloc, params.d)?)?;
        let desk = Desk::new(alloc, params)?;
        Ok(Session {
            params: *params,
            view: View::new(alloc, params, book)?,
            tags: Tags::new(alloc),
            desk,
        })
    }

    /// The length of the list so far.
    pub(crate) fn entries(&self) -> u64
        ensures { result ≡ self.now.view.at }
    {
        self.view.at()
    }

    /// How many tags are live.
    pub(crate) fn live(&self) -> u64
        ensures { (h : BasedList) → Keeps h self.now → result ≡ length (live_of h) }
    {
        self.tags.count()
    }

    /// What there is to know of the list so far to judge an update.
    fn standing(&self) -> Standing<'_>
        ensures params { result.params.now ≡ self.now.params }
        ensures knows { (h : BasedList) → Keeps h self.now → KnowsOf h result }
    {
        Standing {
            params: &self.params,
            tags: &self.tags,
            next: self.view.next(),
        }
    }

    /// Makes an insert that is accepted. The only error is want of memory.
    fn insert(&mut self, alloc: Global, tag: Tag, vector: &Vector) -> Result<(), AllocError>
        requires room { self.old.view.at < 2 ^ 64 - 1 }
        requires accepted { Accepts self.old (Insert tag vector.now) }
        ensures params { self.new.params ≡ self.old.params }
        ensures at { OnOk result (self.new.view.at ≡ self.old.view.at + 1) }
        ensures kept { Makes self.old self.new (Insert tag vector.now) result }
    {
        let pid = self.view.next();
        self.tags.reserve(1)?;
        let vector = Vector::copy(alloc, vector.bytes())?;
        self.view.apply(&Op::Insert { tag, vector })?;
        self.tags.insert(tag, pid);
        Ok(())
    }

    /// Makes a delete that is accepted. The only error is want of memory.
    fn delete(&mut self, tag: Tag) -> Result<(), AllocError>
        requires room { self.old.view.at < 2 ^ 64 - 1 }
        requires accepted { Accepts self.old (Delete tag) }
        ensures params { self.new.params ≡ self.old.params }
        ensures at { OnOk result (self.new.view.at ≡ self.old.view.at + 1) }
        ensures kept { Makes self.old self.new (Delete tag) result }
    {
        let Some(pid) = self.tags.get(tag) else {
            unreachable!()
        };
        self.view.apply(&Op::Delete { pid })?;
        self.tags.remove(tag);
        Ok(())
    }

    /// Makes a replace that is accepted. The only error is want of memory.
    fn replace(&mut self, alloc: Global, tag: Tag, vector: &Vector) -> Result<(), AllocError>
        requires room { self.old.view.at < 2 ^ 64 - 1 }
        requires accepted { Accepts self.old (Replace tag vector.now) }
        ensures params { self.new.params ≡ self.old.params }
        ensures at { OnOk result (self.new.view.at ≡ self.old.view.at + 1) }
        ensures kept { Makes self.old self.new (Replace tag vector.now) result }
    {
        let Some(gone) = self.tags.get(tag) else {
            unreachable!()
        };
        let pid = self.view.next();
        self.tags.reserve(1)?;
        let vector = Vector::copy(alloc, vector.bytes())?;
        self.view.apply(&Op::Replace { tag, gone, vector })?;
        self.tags.remove(tag);
        self.tags.insert(tag, pid);
        Ok(())
    }

    /// Makes a change that is accepted. The only error is want of memory.
    fn make_one(&mut self, alloc: Global, change: &Change) -> Result<(), AllocError>
        requires room { self.old.view.at < 2 ^ 64 - 1 }
        requires accepted { Accepts self.old change.now }
        ensures params { self.new.params ≡ self.old.params }
        ensures at { OnOk result (self.new.view.at ≡ self.old.view.at + 1) }
        ensures kept { Makes self.old self.new change.now result }
    {
        match change {
            Change::Insert { tag, vector } => self.insert(alloc, *tag, vector),
            Change::Delete { tag } => self.delete(*tag),
            Change::Replace { tag, vector } => self.replace(alloc, *tag, vector),
        }
    }

    /// Makes the changes of an update that is accepted. The only error is want of memory; the first of them may then be
    /// made.
    fn make(&mut self, alloc: Global, changes: &[Change]) -> Result<(), AllocError>
        requires room { self.old.view.at + length changes.now < 2 ^ 64 }
        requires accepted { AcceptsAll self.old changes.now }
        ensures params { self.new.params ≡ self.old.params }
        ensures kept { MakesAll self.old self.new changes.now result }
    {
        for change in changes {
            self.make_one(alloc, change)?;
        }
        Ok(())
    }

    /// Judges an update, makes it where it is accepted, and replies. The only error is want of memory.
    pub(crate) fn update(
        &mut self,
        alloc: Global,
        changes: &[Change],
        batch: bool,
    ) -> Result<Reply, AllocError>
        requires few { length changes.now ≤ 64 }
        requires room { self.old.view.at + 64 < 2 ^ 64 }
        requires kept { (h : BasedList) × Keeps h self.old }
        ensures params { self.new.params ≡ self.old.params }
        ensures reply { Replies self.old (Apply changes.now batch) result }
        ensures list { Follows self.old self.new (Apply changes.now batch) result }
    {
        if let Some((index, refusal)) = self.standing().judge(changes) {
            let refused = word_of(index, refusal, self.entries());
            return Ok(Reply::Update { refused, batch });
        }
        self.make(alloc, changes)?;
        Ok(accepted(changes, batch, self.entries()))
    }

    /// Replies to a search. The only error is want of memory.
    pub(crate) fn search(&mut self, alloc: Global, ask: &Ask) -> Result<Reply, AllocError>
        ensures params { self.new.params ≡ self.old.params }
        ensures same { (h : BasedList) → Keeps h self.old → Keeps h self.new }
        ensures reply { Replies self.old (Find ask.now.k ask.now.l ask.now.vector) result }
    {
        self.view.known();
        match self.view.near(&mut self.desk, ask) {
            Ok(()) => Ok(Reply::Found {
                at: self.entries(),
                hits: copied(alloc, self.desk.hits())?,
            }),
            Err(SearchRefused::Dimension { got, want }) => Ok(Reply::Search {
                refused: SearchWord::Dimension { got, want },
            }),
            Err(_) => unreachable!(),
        }
    }
}
