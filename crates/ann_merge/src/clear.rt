// The number that a refused seal may have left.
ghost use Rattle.std.specs.Prelude.{◌≡◌, ◌⊎◌, None, OnOk, OnErr};
ghost use Rattle.std.specs.FinMap as map;
ghost use Rattle.ann_merge.specs.Job.{KeepsNumbers, HasFaulted};

use ann_vault::{Failed, Vault};

/// Takes a number away, if it is sealed.
pub(crate) fn clear<V: Vault>(vault: &mut V, number: u64) -> Result<(), Failed>
    ensures gone { V.Seal.tells → OnOk result (map.get (V.held vault.new) number ≡ None) }
    ensures left { V.Seal.tells → OnErr result (
        (map.get (V.held vault.new) number ≡ map.get (V.held vault.old) number)
        ⊎ (map.get (V.held vault.new) number ≡ None)) }
    ensures others { V.Seal.tells → KeepsNumbers number (V.held vault.old) (V.held vault.new) }
    ensures cause { HasFaulted (V.faults vault.old) (V.faults vault.new) result }
{
    if let Some(seal) = vault.open(number)? {
        vault.remove(seal)?;
    }
    Ok(())
}
