// What a vault in memory keeps: a seal for each number.
ghost use Rattle.std.specs.Prelude.{◌≡◌, OnOk, OnErr, IfOk};
ghost use Rattle.std.specs.BTreeMap as tree;
ghost use Rattle.std.specs.FinMap as map;
ghost use Rattle.std.specs.Ordering.{nat_cmp};
ghost use Rattle.ann_vault.specs.Held.{IsSealOf};
ghost use Rattle.ann_vault.specs.Seal.{seal_number, seal_bytes};

use crate::Sealed;
use std::alloc::{AllocError, Global};
use std::collections::BTreeMap;
use std::sync::Arc;

/// A seal of a vault in memory. It shares its bytes with the vault and with every other seal of them.
#[derive(Drop)]
pub struct MemorySeal {
    pub(crate) number: u64,
    bytes: Arc<Vec<u8>>,
}

/// The seals by number.
#[derive(Drop)]
pub(crate) struct Shelf {
    alloc: Global,
    sealed: BTreeMap<u64, MemorySeal>,
}

impl Sealed for MemorySeal {
    ghost use Rattle.ann_vault.specs.Seal.{seal_number, seal_bytes};

    ghost tells = { Unit {0} };

    ghost number = { seal_number };

    ghost bytes = { seal_bytes };
}

impl MemorySeal {
    /// The bytes that were sealed.
    pub fn bytes(&self) -> &[u8]
        ensures { result.now ≡ seal_bytes self.now }
    {
        &self.bytes
    }

    /// The same seal once more.
    fn share(&self) -> Result<MemorySeal, AllocError>
        ensures number { IfOk result (λ seal. seal_number seal ≡ seal_number self.now) }
        ensures bytes { IfOk result (λ seal. seal_bytes seal ≡ seal_bytes self.now) }
    {
        Ok(MemorySeal {
            number: self.number,
            bytes: self.bytes.clone()?,
        })
    }
}

/// The keys of a map of seals, in ascending order.
fn keys_of(alloc: Global, sealed: &BTreeMap<u64, MemorySeal>) -> Result<Vec<u64>, AllocError>
    ensures keys { IfOk result (λ keys. keys.items ≡ tree.keys sealed.now) }
    ensures ordered { tree.IsOrdered nat_cmp sealed.now }
{
    sealed.keys().copied().collect(alloc)
}

impl Shelf {
    ghost use Rattle.ann_vault.specs.Shelf.{shelf_held};

    /// Nothing is sealed.
    pub(crate) fn new(alloc: Global) -> Shelf
        ensures { shelf_held result ≡ map.empty }
    {
        Shelf {
            alloc,
            sealed: BTreeMap::new(alloc),
        }
    }

    /// Seals bytes under a number, and gives the seal. The only error is want of memory.
    pub(crate) fn put(&mut self, number: u64, bytes: Vec<u8>) -> Result<MemorySeal, AllocError>
        ensures sealed { OnOk result (shelf_held self.new
            ≡ map.insert (shelf_held self.old) number bytes.items) }
        ensures number { IfOk result (λ seal. seal_number seal ≡ number) }
        ensures bytes { IfOk result (λ seal. seal_bytes seal ≡ bytes.items) }
        ensures refused { OnErr result (shelf_held self.new ≡ shelf_held self.old) }
    {
        let bytes = Arc::new(self.alloc, bytes)?;
        let seal = MemorySeal { number, bytes };
        let kept = seal.share()?;
        self.sealed.insert(number, kept)?;
        Ok(seal)
    }

    /// Takes a number away.
    pub(crate) fn take(&mut self, number: u64)
        ensures { shelf_held self.new ≡ map.remove (shelf_held self.old) number }
    {
        self.sealed.remove(&number);
    }

    /// A seal of a number, if it is sealed. The only error is want of memory.
    pub(crate) fn find(&self, number: u64) -> Result<Option<MemorySeal>, AllocError>
        ensures { IfOk result (IsSealOf seal_number seal_bytes (shelf_held self.now) number) }
    {
        match self.sealed.get(&number) {
            None => Ok(None),
            Some(kept) => Ok(Some(MemorySeal {
                number,
                bytes: kept.bytes.clone()?,
            })),
        }
    }

    /// The sealed numbers, in ascending order. The only error is want of memory.
    pub(crate) fn numbers(&self) -> Result<Vec<u64>, AllocError>
        ensures { IfOk result (λ numbers. numbers.items ≡ map.keys (shelf_held self.now)) }
    {
        keys_of(self.alloc, &self.sealed)
    }
}
