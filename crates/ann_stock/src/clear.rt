// Removing the retired segments that nobody else holds.
ghost use Rattle.std.specs.Prelude.{◌≡◌, OnOk, OnErr, map, vec_capacity};
ghost use Rattle.std.specs.Arc.{arc_value};
ghost use Rattle.std.specs.FinMap as numbers;
ghost use Rattle.ann_fault.specs.Counts.{HasCause};
ghost use Rattle.ann_vault.specs.Held.{MayBeRemoved};
ghost use Rattle.ann_stock.specs.Cleared.{IsCleared};

use ann_segment::Segment;
use ann_vault::{Failed, Vault};
use std::sync::Arc;

/// Goes through the retired segments once: the base's is let go, one that nobody else holds is removed, and each other stays.
/// Whether no removal failed. Takes no memory, since each is taken from the front before one that stays goes behind the others.
pub(crate) fn clear_retired<V: Vault>(
    vault: &mut V,
    retired: &mut Vec<Arc<Segment<V::Seal>>>,
    base: u64,
) -> bool
    ensures cleared { IsCleared V.Seal.tells base
        (map arc_value retired.old.items) (map arc_value retired.new.items)
        (V.held vault.old) (V.held vault.new) (V.faults vault.old) (V.faults vault.new) result }
    ensures room { vec_capacity retired.new ≡ vec_capacity retired.old }
{
    let mut calm = true;
    for _ in 0..retired.len() {
        let segment = retired.remove(0);
        if segment.number() != base {
            match Arc::try_unwrap(segment) {
                Ok(segment) => match remove(vault, segment) {
                    Ok(()) => {}
                    Err(Failed) => calm = false,
                },
                Err(shared) => retired.push_reserved(shared),
            }
        }
    }
    calm
}

// Removes a segment from the vault.
fn remove<V: Vault>(vault: &mut V, segment: Segment<V::Seal>) -> Result<(), Failed>
    ensures removed { V.Seal.tells →
        OnOk result (V.held vault.new ≡ numbers.remove (V.held vault.old) segment.number) }
    ensures refused { V.Seal.tells →
        OnErr result (MayBeRemoved segment.number (V.held vault.old) (V.held vault.new)) }
    ensures cause { HasCause (V.faults vault.old) (V.faults vault.new) result }
{
    segment.known();
    vault.remove(segment.into_seal())
}
