// Closing an index.
ghost use Rattle.std.specs.Prelude.{◌≡◌, Bool, IsTrue, length};
ghost use Rattle.ann_types.specs.Lists.{BasedList, live_of};
ghost use Rattle.ann_journal.specs.Safe.{IsSafe};
ghost use Rattle.ann_stock.specs.Stock.{AtHand};
ghost use Rattle.ann_index.specs.Closed.{HasClosed};
ghost use Rattle.ann_index.specs.Devices.{DevicesGoOn};
ghost use Rattle.ann_index.specs.Index.{IsIndexOf};

use crate::index::Index;
use ann_disk::LogFile;
use ann_ledger::Ledger;
use ann_log::Log;
use ann_vault::{Eye, Vault};

/// The parts of an index that was closed.
#[derive(Drop)]
pub struct Closed<F: LogFile, V: Vault, E: Eye<Seal = V::Seal>> {
    /// The log.
    pub log: Log<F>,
    /// The sealed segments.
    pub vault: V,
    /// The eyes of the workers, in the order in which they were given.
    pub eyes: Vec<E>,
    /// The eye of the searches.
    pub eye: E,
    /// How many tags were live.
    pub live: u64,
    /// Whether no removal of a retired segment failed.
    pub removed: bool,
}

impl<F: LogFile, V: Vault, E: Eye<Seal = V::Seal>> Index<F, V, E> {
    /// Closes the index: retired segments are removed, each unless somebody else holds it (who does isn't told, so no clause
    /// says that one goes), and all parts come out. The place opens
    /// again with each update that was acknowledged.
    pub fn close(self) -> Closed<F, V, E>
        ensures parts { HasClosed V.Seal.tells V.held V.faults self.kept
            result.vault result.eyes.items result.removed }
        // The vault and the eyes are those that were there, and no count of theirs falls.
        ensures devices { DevicesGoOn V.faults E.reads E.faults
            self.kept.stock.tools (AtHand result.vault result.eyes.items) }
        ensures log { result.log ≡ self.kept.journal.log }
        ensures eye { result.eye ≡ self.eye }
        ensures live { (sound : Bool) (h shown : BasedList)
            → IsIndexOf F.LogFile V.Seal.tells V.Seal.bytes V.held sound h shown self.kept
            → result.live ≡ length (live_of h) }
        ensures safe { (sound : Bool) (h shown : BasedList)
            → IsIndexOf F.LogFile V.Seal.tells V.Seal.bytes V.held sound h shown self.kept
            → IsTrue sound → IsSafe F.LogFile (V.held result.vault) result.log h }
    {
        let Index { ledger, eye, .. } = self;
        let mut ledger = ledger;
        let live = ledger.journal.account().live();
        let removed = ledger.clear();
        let Ledger { journal, stock } = ledger;
        match stock.into_parts() {
            Some(parts) => Closed {
                log: journal.into_log(),
                vault: parts.vault,
                eyes: parts.eyes,
                eye,
                live,
                removed,
            },
            // No job is out.
            None => unreachable!(),
        }
    }
}
