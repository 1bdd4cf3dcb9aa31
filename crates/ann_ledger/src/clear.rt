// Removing retired segments.
ghost use Rattle.std.specs.Prelude.{◌≡◌, Bool};
ghost use Rattle.ann_types.specs.Lists.{BasedList};
ghost use Rattle.ann_ledger.specs.Ledger.{IsLedgerOf};
ghost use Rattle.ann_ledger.specs.Clearing.{IsClearing};

use crate::ledger::Ledger;
use ann_disk::LogFile;
use ann_vault::{Eye, Vault};

impl<F: LogFile, V: Vault, E: Eye<Seal = V::Seal>> Ledger<F, V, E> {
    /// Where the vault is at hand and the log is open, removes each retired segment that nobody else holds from the vault; but
    /// the segment of the log's base stays. Who else holds a segment isn't told, so no contract says that one goes.
    ///
    /// The answer is false exactly where a removal failed, so only where the vault's count of faults rose in this call.
    pub fn clear(&mut self) -> bool
        ensures cleared { IsClearing V.Seal.tells V.held V.faults self.old.journal.log
            self.old.stock self.new.stock result }
        ensures journal { self.new.journal ≡ self.old.journal }
        ensures ledger { (sound : Bool) (h : BasedList) → IsLedgerOf F.LogFile V.Seal.tells V.Seal.bytes
            V.held sound h self.old.journal self.old.stock →
            IsLedgerOf F.LogFile V.Seal.tells V.Seal.bytes V.held
            sound h self.new.journal self.new.stock }
    {
        // What a log holds whose call failed is in doubt, so nothing is removed that it may name.
        if self.journal.is_closed() {
            return true;
        }
        let base = self.journal.base().segment;
        self.stock.clear(base)
    }
}
