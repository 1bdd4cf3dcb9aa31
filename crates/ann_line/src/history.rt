// The history of a list: a book whose log only grows, the rule of that log, and what the steps on it tell.
//
// Each link of the history goes on from a key to a new one, and the step that adds it gives up the pen of the first key. As
// long as somebody has the pen of a key, no link goes on from that key. So whoever has the pen of the last key is the only
// one who can go on.
ghost use Rattle.std.specs.Prelude.{◌≡◌, []};
ghost use mathlib.Core.List.{IsPrefix};
ghost use Rattle.logbook.specs.Pages.{may_write};
ghost use Rattle.ann_line.specs.History.{head_of, key_after, line};

use ann_types::Entry;
use logbook::{Gain, Offer, Pen, Plain, Play, Rule, Seen, Word};
use std::collections::LinkedList;
use std::snapshot::Snapshot;

/// A link of the history. No value of it is made.
pub struct Link {
    pub from: u64,
    pub entries: LinkedList<Entry>,
    pub to: u64,
}

/// The rule of the history: the word of each key that a link goes on from is at home.
pub struct Chain;

impl Rule<Link, u64> for Chain {
    ghost use Rattle.std.specs.Prelude.{[]};
    ghost use base.Fml.{ftrue};
    ghost use Rattle.ann_line.specs.History.{IsKept};

    ghost holds = { λ cells log. IsKept cells log };

    ghost first = { [] };

    ghost hinted = { λ n log. Unit {0} };

    ghost shows = { λ log. [] };

    ghost keeps = { λ names log. ftrue };

    ghost moves = { λ ask before after answer. Unit {0} };
}

// Callers trade nothing.
pub(crate) struct Nothing;

impl Gain<Link, u64> for Nothing {
    ghost use base.Fml.{ftrue};

    ghost after = { λ names about answer. ftrue };
}

// A step that makes a key from which no link goes on.
pub(crate) struct Make;

impl Play<Link, u64> for Make {
    ghost use Rattle.ann_line.specs.Steps.{Makes};

    ghost then = { Makes };
}

impl Plain<(), Link, u64> for Make {
    ghost use Rattle.std.specs.Prelude.{None};
    ghost use Rattle.ann_line.specs.Steps.{no_link};

    ghost ask = { λ _. no_link };

    ghost state = { λ _. None };
}

// A step that tells the holder of a pen that no link goes on from its key.
pub(crate) struct Stay;

impl Play<Link, u64> for Stay {
    ghost use Rattle.ann_line.specs.Steps.{Stays};

    ghost then = { Stays };
}

impl Plain<(), Link, u64> for Stay {
    ghost use Rattle.std.specs.Prelude.{None};
    ghost use Rattle.ann_line.specs.Steps.{no_link};

    ghost ask = { λ _. no_link };

    ghost state = { λ _. None };
}

// A step that goes on from the key of a pen.
pub(crate) struct Add;

// An entry that is to be added, as the proofs know it, and the pen of the key that it leads to.
pub(crate) struct Ask<'a> {
    pub(crate) entry: &'a Snapshot<Entry>,
    pub(crate) next: Pen,
}

impl Play<Link, u64> for Add {
    ghost use Rattle.ann_line.specs.Steps.{Adds};

    ghost then = { Adds };
}

impl<'a> Plain<Ask<'a>, Link, u64> for Add {
    ghost use Rattle.std.specs.Prelude.{None, ◌∷◌, []};

    ghost ask = { λ a. record { from = 0; entries = a.entry.now.value ∷ []; to = a.next.nib.key } };

    ghost state = { λ _. None };
}

/// The word on which the steps are made; it stays 0.
pub(crate) type Head = Word<Link, u64, Chain>;

/// That the history has reached a log.
pub(crate) type Reached = Seen<Link, u64, Chain>;

/// What is asked of a step.
pub(crate) type Asked = Offer<Link, u64, Chain, Nothing>;

/// The pen of a new key, from which no link goes on.
pub(crate) fn new_key(head: &Head, seen: &mut Reached) -> Pen
    requires { head.now ≡ head_of seen.old.book }
    ensures pen { (result.book ≡ seen.old.book) × (result.nib.right ≡ may_write) }
    ensures off { (line result.nib.key seen.new.log ≡ [])
        × (key_after result.nib.key seen.new.log ≡ result.nib.key) }
    ensures seen { (seen.new.book ≡ seen.old.book) × IsPrefix seen.old.log seen.new.log }
{
    let mut offer: Asked = seen.plain::<Nothing, (), Make>(&());
    let mut pen = seen.no_pen();
    let _found = head.compare_exchange::<Make, Nothing>(0, 0, seen, &mut offer, &mut pen);
    let _word: Head = Word::tracked(0, &mut pen);
    pen
}
