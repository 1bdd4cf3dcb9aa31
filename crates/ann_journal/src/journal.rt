ghost use Rattle.std.specs.Prelude.{◌≡◌, ◌<◌, ◌+◌, ◌*◌, ◌∷◌, [], false, List, drop, length, MatchOption};
ghost use Rattle.ann_types.specs.Lists.{BasedList, live_of};
ghost use Rattle.ann_state.specs.State.{AreKept};
ghost use Rattle.ann_vault.specs.Held.{Holding};
ghost use Rattle.ann_view.specs.declared.op.Op.{Op as Operation};
ghost use Rattle.ann_journal.specs.Journal.{IsJournalOf};
ghost use Rattle.ann_journal.specs.Safe.{IsSafe};

use ann_account::Account;
use ann_disk::LogFile;
use ann_log::{Base, Log};
use ann_types::Params;
use ann_vault::Sealed;
use ann_view::Op;
use std::marker::Model;

/// The log of an index, and what is known of its list.
#[derive(Drop)]
pub struct Journal<F: LogFile, S: Sealed> {
    pub(crate) log: Log<F>,
    pub(crate) account: Account<S>,
}

impl<F: LogFile, S: Sealed> Model for Journal<F, S> {
    ghost use Rattle.std.specs.Coded.{codes};
    ghost use Rattle.ann_tags.specs.Tags.{shown_code};
    ghost use Rattle.ann_journal.specs.Journal.{JournalView};

    ghost Value = { JournalView F S };

    ghost coded = { Prim.hlevel (codes, shown_code) };

    ghost view = { λ j. record { log = j.log; account = j.account } };
}

impl<F: LogFile, S: Sealed> Journal<F, S> {
    /// A journal of a log and of what is known of its list.
    pub fn new(log: Log<F>, account: Account<S>) -> Journal<F, S>
        ensures { result ≡ record { log = log; account = account } }
    {
        Journal { log, account }
    }

    /// The log.
    pub fn log(&self) -> &Log<F>
        ensures { result.now ≡ self.now.log }
    {
        &self.log
    }

    /// Whether a call of the log has failed. A closed log isn't extended.
    pub fn is_closed(&self) -> bool
        ensures closed { result ≡ self.now.log.is_closed }
        // While it is open, a place is safe whose vault holds what the list names.
        ensures safe { F.tells → result ≡ false → (h : BasedList) (held : Holding)
            → IsJournalOf F.LogFile h self.now
            → AreKept held self.now.log.params self.now.log.book.book h
            → IsSafe F.LogFile held self.now.log h }
    {
        self.log.is_closed()
    }

    /// What stood before the entries of the log.
    pub fn base(&self) -> &Base
        ensures base { result.now ≡ self.now.log.base }
        // The number of the base's segment is less than that of each merge behind it.
        ensures older { (h : BasedList) → IsJournalOf F.LogFile h self.now
            → h.base.segment < 2 * h.base.position + 1 }
    {
        self.log.base()
    }

    /// The log by itself. What is known of its list is gone.
    pub fn into_log(self) -> Log<F>
        ensures { result ≡ self.log }
    {
        self.log
    }

    /// What is known of the list.
    pub fn account(&self) -> &Account<S>
        ensures { result.now ≡ self.now.account }
    {
        &self.account
    }

    /// The first operation that is logged and not shown yet, if there is one.
    pub fn unshown(&self) -> Option<&Op<S>>
        ensures { MatchOption result (self.now.account.waiting ≡ [])
            (λ op. (rest : List (Operation S)) × (self.now.account.waiting ≡ op.now ∷ rest)) }
    {
        self.account.unshown()
    }

    /// The first operation is shown. It was there.
    pub fn showed(&mut self)
        requires { 0 < length self.old.account.waiting }
        ensures account { self.new.account
            ≡ record self.old.account { waiting = drop 1 self.old.account.waiting } }
        ensures log { self.new.log ≡ self.old.log }
    {
        self.account.showed();
    }
}
