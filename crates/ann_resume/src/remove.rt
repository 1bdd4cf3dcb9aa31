// Removing the sealed segments that nobody names.
ghost use Rattle.std.specs.Prelude.{◌≡◌, ◌==◌, ◌&&◌, ◌||◌, not, OnOk, OnErr};
ghost use Rattle.std.specs.FinMap as map;
ghost use Rattle.ann_fault.specs.Counts.{HasCause};
ghost use Rattle.ann_vault.specs.Counted.{CountsFault};
ghost use Rattle.ann_vault.specs.Held.{MayBeRemoved};
ghost use Rattle.ann_resume.specs.Removed.{is_named, MayLack};

use crate::refused::RemoveRefused;
use ann_vault::{Failed, Vault};
use std::alloc::Global;

/// Removes each sealed segment that neither of two numbers names. The number 0 names none.
///
/// # Errors
///
/// `Disk` where a call of the vault failed, or want of memory. Some of these segments may then be removed.
pub fn remove_others<V: Vault>(
    alloc: Global,
    vault: &mut V,
    first: u64,
    second: u64,
) -> Result<(), RemoveRefused>
    ensures removed { V.Seal.tells → OnOk result (
        V.held vault.new ≡ map.retain_keys (V.held vault.old) (is_named first second)) }
    ensures refused { V.Seal.tells → OnErr result (
        MayLack (is_named first second) (V.held vault.old) (V.held vault.new)) }
    ensures cause { CountsFault (λ why. why ≡ RemoveRefused.Disk)
        result (V.faults vault.old) (V.faults vault.new) }
{
    let mut numbers = Vec::new(alloc);
    vault.numbers(&mut numbers)?;
    for number in &numbers {
        if !names(first, second, *number) {
            remove(vault, *number)?;
        }
    }
    Ok(())
}

// One of two numbers names a segment.
fn names(first: u64, second: u64, number: u64) -> bool
    ensures { result ≡ is_named first second number }
{
    number != 0 && (number == first || number == second)
}

// Removes the segment of a number, if it is there.
fn remove<V: Vault>(vault: &mut V, number: u64) -> Result<(), Failed>
    ensures removed { V.Seal.tells →
        OnOk result (V.held vault.new ≡ map.remove (V.held vault.old) number) }
    ensures refused { V.Seal.tells →
        OnErr result (MayBeRemoved number (V.held vault.old) (V.held vault.new)) }
    ensures cause { HasCause (V.faults vault.old) (V.faults vault.new) result }
{
    match vault.open(number)? {
        Some(seal) => vault.remove(seal),
        None => Ok(()),
    }
}
