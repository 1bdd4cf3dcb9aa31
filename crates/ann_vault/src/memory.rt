// A vault in memory.
ghost use Rattle.std.specs.Prelude.{◌≡◌, ◌≢◌, ◌↔◌, ℕ, [], ◌++◌, None, Some, OnOk, OnErr, IfOk, IsErr, IsErrOf};
ghost use Rattle.std.specs.BTreeMap as tree;
ghost use Rattle.std.specs.Ordering.{nat_cmp};
ghost use Rattle.std.specs.FinMap as map;
ghost use Rattle.ann_fault.specs.Calls.{IsFresh, FailsNext, CountsCall};
ghost use Rattle.ann_fault.specs.Counts.{HasCause};
ghost use Rattle.ann_vault.specs.Counted.{CountsFault};
ghost use Rattle.ann_vault.specs.Drafts.{KeepsDrafts, KeepsOthers};
ghost use Rattle.ann_vault.specs.Held.{IsSealOf, MayBeRemoved, MayBeSealed};

use crate::shelf::{MemorySeal, Shelf};
use crate::{Failed, NumbersRefused, Vault};
use ann_fault::{Calls, Faults};
use std::alloc::{AllocError, Global};
use std::collections::BTreeMap;

/// A draft of a vault in memory.
#[derive(Drop)]
pub struct MemoryDraft {
    number: u64,
    // Which draft of its number it is, from 1.
    turn: u64,
    bytes: Vec<u8>,
}

/// A vault in memory, which tells what it holds. Its calls fail where the test that made it says so, and where its own
/// growth finds no memory. A removal that is made to fail is done exactly where the call's number is even, and a seal
/// that is made to fail only there.
#[derive(Drop)]
pub struct MemoryVault {
    alloc: Global,
    shelf: Shelf,
    // How many drafts of each number were begun.
    begun: BTreeMap<u64, u64>,
    calls: Calls,
    faults: Faults,
}

impl MemoryVault {
    ghost use Rattle.ann_vault.specs.Memory.{memory_held, vault_calls, vault_faults};

    /// A vault in which nothing is sealed. The trait's calls with these numbers, from 1, fail.
    pub fn new(alloc: Global, failing: &[u64]) -> Result<MemoryVault, AllocError>
        ensures empty { IfOk result (λ vault. memory_held vault ≡ map.empty) }
        ensures fresh { IfOk result (λ vault. IsFresh failing.now (vault_calls vault)) }
        ensures calm { IfOk result (λ vault. vault_faults vault ≡ 0) }
    {
        Ok(MemoryVault {
            alloc,
            shelf: Shelf::new(alloc),
            begun: BTreeMap::new(alloc),
            calls: Calls::new(alloc, failing)?,
            faults: Faults::none(),
        })
    }

    /// Seals bytes under a number that isn't sealed. It counts as no call. The only error is want of memory.
    pub fn preset(&mut self, number: u64, bytes: &[u8]) -> Result<(), AllocError>
        requires { map.get (memory_held self.old) number ≡ None }
        ensures sealed { OnOk result (memory_held self.new
            ≡ map.insert (memory_held self.old) number bytes.now) }
        ensures refused { OnErr result (memory_held self.new ≡ memory_held self.old) }
        ensures calls { vault_calls self.new ≡ vault_calls self.old }
        ensures faults { vault_faults self.new ≡ vault_faults self.old }
        ensures drafts { KeepsDrafts ⟦<MemoryVault as Vault>⟧.is_current self.old self.new }
    {
        let bytes = bytes.to_vec(self.alloc)?;
        self.shelf.put(number, bytes)?;
        Ok(())
    }
}

/// Counts one more draft of a number, and says how many there are.
fn next_turn(begun: &mut BTreeMap<u64, u64>, number: u64) -> Result<u64, AllocError>
    ensures counted { IfOk result (λ turn. tree.get nat_cmp begun.new number ≡ Some turn) }
    ensures others { (other : ℕ) → other ≢ number →
        tree.get nat_cmp begun.new other ≡ tree.get nat_cmp begun.old other }
{
    let turn = begun.get(&number).map_or(1, |turn| turn.saturating_add(1));
    begun.insert(number, turn)?;
    Ok(turn)
}

impl Vault for MemoryVault {
    ghost use Rattle.ann_vault.specs.Seal.{seal_number, seal_bytes};
    ghost use Rattle.ann_vault.specs.Memory.{memory_held, vault_calls, vault_faults, draft_number, draft_bytes, is_last, IsEven, left_by_removal};

    type Seal = MemorySeal;

    type Draft = MemoryDraft;

    ghost held = { memory_held };

    ghost draft_number = { draft_number };

    ghost draft_bytes = { draft_bytes };

    ghost is_current = { is_last };

    ghost faults = { vault_faults };

    fn create(&mut self, number: u64) -> Result<MemoryDraft, Failed>
        requires { map.get (memory_held self.old) number ≡ None }
        ensures number { IfOk result (λ draft. draft_number draft ≡ number) }
        ensures empty { IfOk result (λ draft. draft_bytes draft ≡ []) }
        ensures current { IfOk result (is_last self.new) }
        ensures others { KeepsOthers is_last self.old self.new draft_number number }
        ensures same { memory_held self.new ≡ memory_held self.old }
        ensures fails { FailsNext (vault_calls self.old) → IsErr result }
        ensures counts { CountsCall (vault_calls self.old) (vault_calls self.new) }
        ensures cause { HasCause (vault_faults self.old) (vault_faults self.new) result }
    {
        if self.calls.begin() {
            return Err(self.faults.fail());
        }
        match next_turn(&mut self.begun, number) {
            Ok(turn) => Ok(MemoryDraft {
                number,
                turn,
                bytes: Vec::new(self.alloc),
            }),
            Err(_) => Err(self.faults.fail()),
        }
    }

    fn write(&mut self, draft: &mut MemoryDraft, bytes: &[u8]) -> Result<(), Failed>
        requires { is_last self.old draft.old }
        ensures number { draft_number draft.new ≡ draft_number draft.old }
        ensures written { OnOk result (draft_bytes draft.new ≡ draft_bytes draft.old ++ bytes.now) }
        ensures current { is_last self.new draft.new }
        ensures others { KeepsDrafts is_last self.old self.new }
        ensures same { memory_held self.new ≡ memory_held self.old }
        ensures fails { FailsNext (vault_calls self.old) → IsErr result }
        ensures counts { CountsCall (vault_calls self.old) (vault_calls self.new) }
        ensures cause { HasCause (vault_faults self.old) (vault_faults self.new) result }
    {
        if self.calls.begin() || draft.bytes.extend_from_slice(bytes).is_err() {
            return Err(self.faults.fail());
        }
        Ok(())
    }

    fn seal(&mut self, draft: MemoryDraft) -> Result<MemorySeal, Failed>
        requires { is_last self.old draft }
        ensures sealed { OnOk result (memory_held self.new
            ≡ map.insert (memory_held self.old) draft.number draft.bytes.items) }
        ensures number { IfOk result (λ seal. seal_number seal ≡ draft_number draft) }
        ensures bytes { IfOk result (λ seal. seal_bytes seal ≡ draft_bytes draft) }
        ensures refused { OnErr result (MayBeSealed draft.number draft.bytes.items (memory_held self.old)
            (memory_held self.new)) }
        ensures undone { FailsNext (vault_calls self.old) → (IsEven (vault_calls self.old) → ⊥)
            → memory_held self.new ≡ memory_held self.old }
        ensures others { KeepsDrafts is_last self.old self.new }
        ensures fails { FailsNext (vault_calls self.old) → IsErr result }
        ensures counts { CountsCall (vault_calls self.old) (vault_calls self.new) }
        ensures cause { HasCause (vault_faults self.old) (vault_faults self.new) result }
    {
        if self.calls.begin() {
            if self.calls.made % 2 == 0 {
                let _ = self.shelf.put(draft.number, draft.bytes);
            }
            return Err(self.faults.fail());
        }
        match self.shelf.put(draft.number, draft.bytes) {
            Ok(seal) => Ok(seal),
            Err(_) => Err(self.faults.fail()),
        }
    }

    fn open(&mut self, number: u64) -> Result<Option<MemorySeal>, Failed>
        ensures found { IfOk result (IsSealOf seal_number seal_bytes (memory_held self.old) number) }
        ensures same { memory_held self.new ≡ memory_held self.old }
        ensures drafts { KeepsDrafts is_last self.old self.new }
        ensures fails { FailsNext (vault_calls self.old) → IsErr result }
        ensures counts { CountsCall (vault_calls self.old) (vault_calls self.new) }
        ensures cause { HasCause (vault_faults self.old) (vault_faults self.new) result }
    {
        if self.calls.begin() {
            return Err(self.faults.fail());
        }
        match self.shelf.find(number) {
            Ok(found) => Ok(found),
            Err(_) => Err(self.faults.fail()),
        }
    }

    fn remove(&mut self, seal: MemorySeal) -> Result<(), Failed>
        ensures removed { OnOk result (memory_held self.new
            ≡ map.remove (memory_held self.old) (seal_number seal)) }
        ensures refused { OnErr result (memory_held self.new
            ≡ left_by_removal (vault_calls self.old) (seal_number seal) (memory_held self.old)) }
        ensures drafts { KeepsDrafts is_last self.old self.new }
        ensures fails { IsErr result ↔ FailsNext (vault_calls self.old) }
        ensures counts { CountsCall (vault_calls self.old) (vault_calls self.new) }
        ensures cause { HasCause (vault_faults self.old) (vault_faults self.new) result }
    {
        if self.calls.begin() {
            if self.calls.made % 2 == 0 {
                self.shelf.take(seal.number);
            }
            return Err(self.faults.fail());
        }
        self.shelf.take(seal.number);
        Ok(())
    }

    fn numbers(&mut self, list: &mut Vec<u64>) -> Result<(), NumbersRefused>
        ensures numbers { OnOk result (list.new.items ≡ map.keys (memory_held self.old)) }
        ensures refused { OnErr result (list.new.items ≡ list.old.items) }
        ensures same { memory_held self.new ≡ memory_held self.old }
        ensures drafts { KeepsDrafts is_last self.old self.new }
        ensures fails { IsErrOf result NumbersRefused.Failed ↔ FailsNext (vault_calls self.old) }
        ensures counts { CountsCall (vault_calls self.old) (vault_calls self.new) }
        ensures cause { CountsFault (λ why. why ≡ NumbersRefused.Failed)
            result (vault_faults self.old) (vault_faults self.new) }
    {
        if self.calls.begin() {
            let _ = self.faults.fail();
            return Err(NumbersRefused::Failed);
        }
        match self.shelf.numbers() {
            Ok(numbers) => {
                *list = numbers;
                Ok(())
            }
            Err(error) => Err(NumbersRefused::Memory(error)),
        }
    }
}
