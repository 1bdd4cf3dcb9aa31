// The keeper of a list.
ghost use Rattle.std.specs.Prelude.{◌≡◌, ◌+◌, ◌<◌, ◌^◌};
ghost use Rattle.ann_types.specs.Lists.{BeginsWith, length_of, with_entry};

use crate::front::Front;
use crate::history::{Add, Ask, Asked, Head, Nothing, Reached, Stay, new_key};
use crate::name::ListName;
use ann_types::Entry;
use logbook::{Pen, Seen, Start, Word};
use std::marker::{Model, PhantomData};
use std::snapshot::Snapshot;

/// A history in which nothing was added, and which has no name yet.
///
/// Contracts see it as its origin.
#[derive(Drop)]
pub struct Opened {
    head: Head,
    seen: Reached,
    pen: Pen,
}

impl Model for Opened {
    ghost use Rattle.std.specs.Prelude.{◌≡◌, []};
    ghost use Rattle.logbook.specs.Pages.{may_write};
    ghost use Rattle.ann_line.specs.History.{Origin, head_of, key_after, line};

    ghost Value = { Origin };

    ghost view = { λ o. record { book = o.seen.book; root = o.pen.nib.key } };

    ghost invariant = { λ o. (o.head ≡ head_of o.seen.book) × (o.pen.book ≡ o.seen.book)
        × (o.pen.nib.right ≡ may_write)
        × (line o.pen.nib.key o.seen.log ≡ []) × (key_after o.pen.nib.key o.seen.log ≡ o.pen.nib.key) };
}

impl Opened {
    /// Opens a history.
    pub fn new() -> Opened {
        let (seen, mut first, _second) = Seen::open(Start::alone(), 0, 0);
        let mut seen = seen;
        let head = Word::tracked(0, &mut first);
        let pen = new_key(&head, &mut seen);
        Opened { head, seen, pen }
    }

    /// The keeper of the opening list of a name, at the list's length. The name is picked for this history.
    pub fn named<N: ListName>(self, at: u64) -> Keeper<N>
        requires name { self ≡ N.origin }
        requires length { at ≡ length_of N.opening }
        ensures { result ≡ N.opening }
    {
        let Opened { head, seen, pen } = self;
        Keeper {
            head,
            at,
            seen,
            pen,
            of: PhantomData,
        }
    }
}

/// The whole list with this name, and the right to add to it.
///
/// Contracts see it as that list of entries on a base.
#[derive(Drop)]
pub struct Keeper<N: ListName> {
    head: Head,
    at: u64,
    seen: Reached,
    pen: Pen,
    of: PhantomData<N>,
}

impl<N: ListName> Model for Keeper<N> {
    ghost use Rattle.std.specs.Prelude.{◌≡◌};
    ghost use Rattle.ann_types.specs.Lists.{BasedList, length_of};
    ghost use Rattle.logbook.specs.Pages.{may_write};
    ghost use Rattle.ann_line.specs.History.{head_of, key_after, listed};

    ghost Value = { BasedList };

    ghost view = { λ k. listed N.opening N.origin.root k.seen.log };

    // The word is the history's, and the pen is that of the key that the list leads to.
    ghost invariant = { λ k. (k.at ≡ length_of (listed N.opening N.origin.root k.seen.log))
        × (k.seen.book ≡ N.origin.book) × (k.pen.book ≡ N.origin.book) × (k.pen.nib.right ≡ may_write)
        × (k.pen.nib.key ≡ key_after N.origin.root k.seen.log) × (k.head ≡ head_of N.origin.book) };
}

impl<N: ListName> Keeper<N> {
    /// The length of the list. The list begins with the opening one.
    pub fn at(&self) -> u64
        ensures length { result ≡ length_of self.now }
        ensures begins { BeginsWith self.now N.opening }
    {
        self.at
    }

    /// A front that is the whole list.
    pub fn front(&self) -> Front<N>
        ensures { result ≡ self.now }
    {
        Front {
            at: self.at,
            seen: self.seen.again(),
            of: PhantomData,
        }
    }

    /// Adds an entry to the list. Nobody else can, so it always does.
    pub fn add(&mut self, entry: &Entry)
        requires room { length_of self.old + 1 < 2 ^ 64 }
        ensures { self.new ≡ with_entry self.old entry.now }
    {
        self.add_noted(&Snapshot::of(entry));
    }

    /// Adds an entry of which a note was taken, and which may be gone since: the list exists in the proofs alone.
    pub fn add_noted(&mut self, entry: &Snapshot<Entry>)
        requires room { length_of self.old + 1 < 2 ^ 64 }
        ensures { self.new ≡ with_entry self.old entry.now.value }
    {
        let next = new_key(&self.head, &mut self.seen);
        let about = Ask { entry, next };
        let mut offer: Asked = self.seen.plain::<Nothing, Ask, Add>(&about);
        let _found = self
            .head
            .compare_exchange::<Add, Nothing>(0, 0, &mut self.seen, &mut offer, &mut self.pen);
        let Ask { entry: _, next } = about;
        self.pen = next;
        self.at += 1;
    }

    /// The list begins with each front of it. It changes nothing.
    pub fn covers(&mut self, front: &Front<N>)
        ensures same { self.new ≡ self.old }
        ensures begins { BeginsWith self.new front.now }
    {
        self.seen.learn(&front.seen);
        let mut offer: Asked = self.seen.plain::<Nothing, (), Stay>(&());
        let _found = self
            .head
            .compare_exchange::<Stay, Nothing>(0, 0, &mut self.seen, &mut offer, &mut self.pen);
    }
}
