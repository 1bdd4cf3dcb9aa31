// A ledger of the parts of an index that was opened.
ghost use Rattle.std.specs.Prelude.{◌≡◌, ◌<◌, [], Bool, vec_len};
ghost use Rattle.ann_types.specs.Lists.{BasedList};
ghost use Rattle.ann_stock.specs.Stock.{AtHand};
ghost use Rattle.ann_showing.specs.Showing.{Follows};
ghost use Rattle.ann_ledger.specs.Ledger.{IsLedgerOf};
ghost use Rattle.ann_ledger.specs.Opening.{ArePartsOf};

use crate::ledger::Ledger;
use ann_account::Account;
use ann_disk::LogFile;
use ann_journal::Journal;
use ann_recover::Parts;
use ann_stock::Stock;
use ann_vault::{Eye, Vault};
use ann_view::View;
use std::alloc::Global;

/// A ledger, and the view that shows all of its list.
#[derive(Drop)]
pub struct Opened<F: LogFile, V: Vault, E: Eye<Seal = V::Seal>> {
    pub ledger: Ledger<F, V, E>,
    pub view: View<V::Seal>,
}

impl<F: LogFile, V: Vault, E: Eye<Seal = V::Seal>> Opened<F, V, E> {
    /// The ledger of an index that was opened, and its view. The vault and the eyes are at hand. Takes no memory.
    pub fn of(alloc: Global, parts: Parts<F, V, E>) -> Opened<F, V, E>
        requires eyes { 0 < vec_len parts.eyes }
        requires parts { (sound : Bool) × (h : BasedList) × ArePartsOf F.LogFile V.Seal.tells V.Seal.bytes
            sound h parts.log (V.held parts.vault) parts.view parts.tags parts.begun }
        ensures ledger { (sound : Bool) (h : BasedList) → ArePartsOf F.LogFile V.Seal.tells V.Seal.bytes
            sound h parts.log (V.held parts.vault) parts.view parts.tags parts.begun →
            IsLedgerOf F.LogFile V.Seal.tells V.Seal.bytes V.held
            sound h result.ledger.journal result.ledger.stock }
        ensures shown { (sound : Bool) (h : BasedList) → ArePartsOf F.LogFile V.Seal.tells V.Seal.bytes
            sound h parts.log (V.held parts.vault) parts.view parts.tags parts.begun →
            Follows F.LogFile V.Seal.bytes sound h h result.ledger.journal result.view }
        ensures none { result.ledger.journal.account.waiting ≡ [] }
        ensures log { result.ledger.journal.log ≡ parts.log }
        ensures tools { result.ledger.stock.tools ≡ AtHand parts.vault parts.eyes.items }
        ensures retired { result.ledger.stock.retired ≡ [] }
        ensures view { result.view ≡ parts.view }
    {
        let Parts {
            log,
            vault,
            eyes,
            view,
            tags,
            begun,
        } = parts;
        let account = Account::new(alloc, view.at(), view.next(), begun, tags);
        let ledger = Ledger {
            journal: Journal::new(log, account),
            stock: Stock::new(alloc, vault, eyes),
        };
        let _safe = ledger.journal.is_closed();
        let _older = ledger.journal.base();
        Opened { ledger, view }
    }
}
