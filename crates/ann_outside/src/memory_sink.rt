ghost use Rattle.std.specs.Prelude.{◌≡◌, ◌<◌, Some, IfOk, length, []};
ghost use Rattle.std.specs.Io.{WritesAtMost};
ghost use Rattle.std.specs.Io.KnownBytes.{WriteAppends};
ghost use Rattle.ann_fault.specs.Counts.{HasCause};
ghost use Rattle.ann_outside.specs.Memory.{WritesOutput};
ghost use Rattle.ann_outside.specs.Told.{TellsStill};

use crate::sink::Sink;
use ann_fault::{Calls, Failed, Faults};
use std::alloc::{AllocError, Global};
use std::marker::Model;

/// An output in memory, of whose writes the listed ones fail.
#[derive(Drop)]
pub struct MemorySink {
    taken: Vec<u8>,
    most: usize,
    calls: Calls,
    faults: Faults,
}

impl Model for MemorySink {
    ghost use Rattle.std.specs.Prelude.{◌<◌};
    ghost use Rattle.ann_outside.specs.Memory.{Output};

    ghost Value = { Output };

    ghost view = { λ s. record { taken = s.taken.items; most = s.most; failing = s.calls.failing.items; calls = s.calls.made; faults = s.faults.count } };

    ghost invariant = { λ s. 0 < s.most };
}

impl MemorySink {
    /// An output that has taken nothing yet, and takes `most` bytes of a piece at a time. `failing` lists the numbers,
    /// from 1, of the writes that fail.
    ///
    /// The only error is want of memory.
    pub fn new(alloc: Global, most: usize, failing: &[u64]) -> Result<MemorySink, AllocError>
        requires { 0 < most }
        ensures takes { IfOk result (λ s. (s.taken ≡ []) × (s.most ≡ most)) }
        ensures fresh { IfOk result (λ s. (s.failing ≡ failing.now) × (s.calls ≡ 0) × (s.faults ≡ 0)) }
    {
        Ok(MemorySink {
            taken: Vec::new(alloc),
            most,
            calls: Calls::new(alloc, failing)?,
            faults: Faults::none(),
        })
    }

    /// The bytes taken so far.
    pub fn bytes(&self) -> &[u8]
        ensures { result.now ≡ self.now.taken }
    {
        &self.taken
    }
}

impl Sink for MemorySink {
    ghost taken = { λ s. Some s.taken };

    ghost faults = { λ s. s.faults };

    fn write(&mut self, piece: &[u8]) -> Result<usize, Failed>
        ensures bound { WritesAtMost result piece.now }
        ensures some { IfOk result (λ n. 0 < length piece.now → 0 < n) }
        ensures bytes { WriteAppends (Some self.old.taken) (Some self.new.taken) result piece.now }
        ensures tells { TellsStill (Some self.old.taken) (Some self.new.taken) }
        ensures cause { HasCause self.old.faults self.new.faults result }
        // It fails where the number of the call is listed, and otherwise takes what it may.
        ensures exact { WritesOutput self.old self.new (length piece.now) result }
    {
        let count = piece.len().min(self.most);
        if self.calls.begin() || self.taken.extend_from_slice(&piece[..count]).is_err() {
            return Err(self.faults.fail());
        }
        Ok(count)
    }
}
