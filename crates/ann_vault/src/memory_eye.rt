// An eye over a vault in memory.
ghost use Rattle.std.specs.Prelude.{◌≡◌, ◌↔◌, ◌+◌, ◌≤◌, length, slice_range, OnOk, OnErr, IfOk, IsErr};
ghost use Rattle.ann_fault.specs.Calls.{IsFresh, FailsNext, CountsCall};
ghost use Rattle.ann_fault.specs.Counts.{HasCause, next_count};
ghost use Rattle.ann_vault.specs.Seal.{seal_bytes};

use crate::{Eye, Failed, MemorySeal};
use ann_fault::{Calls, Faults};
use std::alloc::{AllocError, Global};

/// Reads the seals of vaults in memory. Its calls fail where the test that made it says so.
#[derive(Drop)]
pub struct MemoryEye {
    calls: Calls,
    faults: Faults,
    reads: u64,
}

impl MemoryEye {
    ghost use Rattle.ann_vault.specs.MemoryEye.{eye_calls, eye_faults, eye_reads};

    /// An eye that has read nothing. The trait's calls with these numbers, from 1, fail.
    pub fn new(alloc: Global, failing: &[u64]) -> Result<MemoryEye, AllocError>
        ensures unused { IfOk result (λ eye. (eye_reads eye ≡ 0) × (eye_faults eye ≡ 0)) }
        ensures fresh { IfOk result (λ eye. IsFresh failing.now (eye_calls eye)) }
    {
        Ok(MemoryEye {
            calls: Calls::new(alloc, failing)?,
            faults: Faults::none(),
            reads: 0,
        })
    }
}

impl Eye for MemoryEye {
    ghost use Rattle.ann_vault.specs.MemoryEye.{eye_calls, eye_faults, eye_reads};

    type Seal = MemorySeal;

    ghost faults = { eye_faults };

    ghost reads = { eye_reads };

    fn length(&mut self, of: &MemorySeal) -> Result<u64, Failed>
        ensures value { IfOk result (λ n. n ≡ length (seal_bytes of.now)) }
        ensures reads { eye_reads self.new ≡ eye_reads self.old }
        ensures fails { IsErr result ↔ FailsNext (eye_calls self.old) }
        ensures counts { CountsCall (eye_calls self.old) (eye_calls self.new) }
        ensures cause { HasCause (eye_faults self.old) (eye_faults self.new) result }
    {
        if self.calls.begin() {
            return Err(self.faults.fail());
        }
        Ok(of.bytes().len() as u64)
    }

    fn read(&mut self, of: &MemorySeal, at: u64, buf: &mut [u8]) -> Result<(), Failed>
        requires { at + length buf.old ≤ length (seal_bytes of.now) }
        ensures bytes { OnOk result (buf.new ≡ slice_range (seal_bytes of.now) at (at + length buf.old)) }
        ensures counted { OnOk result (eye_reads self.new ≡ next_count (eye_reads self.old)) }
        ensures uncounted { OnErr result (eye_reads self.new ≡ eye_reads self.old) }
        ensures fails { IsErr result ↔ FailsNext (eye_calls self.old) }
        ensures counts { CountsCall (eye_calls self.old) (eye_calls self.new) }
        ensures cause { HasCause (eye_faults self.old) (eye_faults self.new) result }
    {
        if self.calls.begin() {
            return Err(self.faults.fail());
        }
        let from = at as usize;
        buf.copy_from_slice(&of.bytes()[from..from + buf.len()]);
        self.reads = self.reads.saturating_add(1);
        Ok(())
    }
}
