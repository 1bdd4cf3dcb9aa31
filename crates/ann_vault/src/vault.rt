// Sealed bytes by number.
ghost use Rattle.std.specs.Prelude.{◌≡◌, [], ◌++◌, ℕ, List, None, Some, OnOk, OnErr, IfOk};
ghost use Rattle.std.specs.FinMap as map;
ghost use Rattle.ann_fault.specs.Counts.{HasCause};
ghost use Rattle.ann_vault.specs.Counted.{CountsFault};
ghost use Rattle.ann_vault.specs.Drafts.{KeepsDrafts, KeepsOthers};
ghost use Rattle.ann_vault.specs.Held.{Holding, IsSealOf, MayBeRemoved, MayBeSealed};

use crate::{Failed, Sealed};
use std::alloc::AllocError;
use thiserror::Error;

/// Why the numbers of a vault weren't given.
#[derive(Debug, Drop, PartialEq, Eq, Error)]
pub enum NumbersRefused {
    /// The call failed, and the vault's count of faults rose or stands at its last value.
    #[error("the vault failed")]
    Failed,
    #[error("no memory for the numbers of the vault")]
    Memory(AllocError),
}

/// Keeps bytes under numbers. Bytes are written into a draft, and then sealed whole or not at all.
///
/// Where its seals tell, a vault tells the map from its numbers to the bytes sealed under them, its drafts tell their
/// number and their bytes so far, and it tells which drafts are current. A draft is current from `create` on, until
/// another one of its number is begun or a write into it fails; then it may only be dropped.
pub trait Vault: Drop {
    type Seal: Sealed;

    type Draft: Drop;

    /// The sealed bytes by number.
    ghost held: { Self → Holding };

    /// The number that a draft is for.
    ghost draft_number: { Self.Draft → ℕ };

    /// What was written into a draft so far.
    ghost draft_bytes: { Self.Draft → List ℕ };

    /// A draft may be written and sealed.
    ghost is_current: { Self → Self.Draft → Type 0 };

    /// How often a call has failed. The count stays at 2^64 - 1.
    ghost faults: { Self → ℕ };

    /// Begins an empty draft. An older draft of that number is given up.
    fn create(&mut self, number: u64) -> Result<Self::Draft, Failed>
        requires { Self.Seal.tells → map.get (held self.old) number ≡ None }
        ensures number { Self.Seal.tells → IfOk result (λ draft. draft_number draft ≡ number) }
        ensures empty { Self.Seal.tells → IfOk result (λ draft. draft_bytes draft ≡ []) }
        ensures current { Self.Seal.tells → IfOk result (is_current self.new) }
        ensures others { Self.Seal.tells → KeepsOthers is_current self.old self.new draft_number number }
        ensures same { Self.Seal.tells → held self.new ≡ held self.old }
        ensures cause { HasCause (faults self.old) (faults self.new) result };

    /// Appends to a draft. After a failure some part may be appended, and the draft is only good for being dropped.
    fn write(&mut self, draft: &mut Self::Draft, bytes: &[u8]) -> Result<(), Failed>
        requires { Self.Seal.tells → is_current self.old draft.old }
        ensures number { Self.Seal.tells → draft_number draft.new ≡ draft_number draft.old }
        ensures written { Self.Seal.tells →
            OnOk result (draft_bytes draft.new ≡ draft_bytes draft.old ++ bytes.now) }
        ensures current { Self.Seal.tells → OnOk result (is_current self.new draft.new) }
        ensures others { Self.Seal.tells →
            KeepsOthers is_current self.old self.new draft_number (draft_number draft.old) }
        ensures same { Self.Seal.tells → held self.new ≡ held self.old }
        ensures cause { HasCause (faults self.old) (faults self.new) result };

    /// Puts a draft's bytes under its number, whole or not at all. From then on every crash leaves them.
    fn seal(&mut self, draft: Self::Draft) -> Result<Self::Seal, Failed>
        requires { Self.Seal.tells → is_current self.old draft }
        ensures sealed { Self.Seal.tells → OnOk result (held self.new
            ≡ map.insert (held self.old) (draft_number draft) (draft_bytes draft)) }
        ensures number { Self.Seal.tells → IfOk result (λ seal. Self.Seal.number seal ≡ draft_number draft) }
        ensures bytes { Self.Seal.tells → IfOk result (λ seal. Self.Seal.bytes seal ≡ draft_bytes draft) }
        ensures refused { Self.Seal.tells → OnErr result (
            MayBeSealed (draft_number draft) (draft_bytes draft) (held self.old) (held self.new)) }
        ensures others { Self.Seal.tells →
            KeepsOthers is_current self.old self.new draft_number (draft_number draft) }
        ensures cause { HasCause (faults self.old) (faults self.new) result };

    /// The seal of a number, or none exactly where the number isn't sealed. A seal that is held keeps its bytes, whatever
    /// is opened or removed later.
    fn open(&mut self, number: u64) -> Result<Option<Self::Seal>, Failed>
        ensures found { Self.Seal.tells →
            IfOk result (IsSealOf Self.Seal.number Self.Seal.bytes (held self.old) number) }
        ensures same { Self.Seal.tells → held self.new ≡ held self.old }
        ensures drafts { Self.Seal.tells → KeepsDrafts is_current self.old self.new }
        ensures cause { HasCause (faults self.old) (faults self.new) result };

    /// Takes the number of a seal away. After a failure it may be there or not.
    fn remove(&mut self, seal: Self::Seal) -> Result<(), Failed>
        ensures removed { Self.Seal.tells →
            OnOk result (held self.new ≡ map.remove (held self.old) (Self.Seal.number seal)) }
        ensures refused { Self.Seal.tells →
            OnErr result (MayBeRemoved (Self.Seal.number seal) (held self.old) (held self.new)) }
        ensures drafts { Self.Seal.tells → KeepsDrafts is_current self.old self.new }
        ensures cause { HasCause (faults self.old) (faults self.new) result };

    /// Puts the sealed numbers into a list, in ascending order and in place of what stood there. A refusal leaves the list.
    fn numbers(&mut self, list: &mut Vec<u64>) -> Result<(), NumbersRefused>
        ensures numbers { Self.Seal.tells → OnOk result (list.new.items ≡ map.keys (held self.old)) }
        ensures refused { OnErr result (list.new.items ≡ list.old.items) }
        ensures same { Self.Seal.tells → held self.new ≡ held self.old }
        ensures drafts { Self.Seal.tells → KeepsDrafts is_current self.old self.new }
        // Want of memory is no fault.
        ensures cause { CountsFault (λ why. why ≡ NumbersRefused.Failed)
            result (faults self.old) (faults self.new) };
}
