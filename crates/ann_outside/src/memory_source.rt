ghost use Rattle.std.specs.Prelude.{◌≡◌, ◌++◌, Some, min, IfOk, length, take, drop};
ghost use Rattle.std.specs.Io.{ReadsAtMost};
ghost use Rattle.std.specs.Io.KnownBytes.{ReadConsumes};
ghost use Rattle.ann_fault.specs.Counts.{HasCause};
ghost use Rattle.ann_outside.specs.Memory.{ReadsInput};
ghost use Rattle.ann_outside.specs.Told.{TellsStill};

use crate::source::Source;
use ann_fault::{Calls, Failed, Faults};
use std::alloc::{AllocError, Global};
use std::marker::Model;

/// An input in memory, of whose reads the listed ones fail.
#[derive(Drop)]
pub struct MemorySource {
    bytes: Vec<u8>,
    at: usize,
    calls: Calls,
    faults: Faults,
}

impl Model for MemorySource {
    ghost use Rattle.std.specs.Prelude.{drop, length, ◌≤◌};
    ghost use Rattle.ann_outside.specs.Memory.{Input};

    ghost Value = { Input };

    ghost view = { λ s. record { left = drop s.at s.bytes.items; failing = s.calls.failing.items; calls = s.calls.made; faults = s.faults.count } };

    ghost invariant = { λ s. s.at ≤ length s.bytes.items };
}

impl MemorySource {
    /// An input that gives these bytes. `failing` lists the numbers, from 1, of the reads that fail.
    ///
    /// The only error is want of memory.
    pub fn new(alloc: Global, bytes: &[u8], failing: &[u64]) -> Result<MemorySource, AllocError>
        ensures left { IfOk result (λ s. s.left ≡ bytes.now) }
        ensures fresh { IfOk result (λ s. (s.failing ≡ failing.now) × (s.calls ≡ 0) × (s.faults ≡ 0)) }
    {
        Ok(MemorySource {
            bytes: bytes.to_vec(alloc)?,
            at: 0,
            calls: Calls::new(alloc, failing)?,
            faults: Faults::none(),
        })
    }
}

/// Copies what there is room for, and gives its length.
fn copy_front(from: &[u8], buf: &mut [u8]) -> usize
    ensures count { result ≡ min (length buf.old) (length from.now) }
    ensures bytes { from.now ≡ take result buf.new ++ drop result from.now }
{
    let count = buf.len().min(from.len());
    buf[..count].copy_from_slice(&from[..count]);
    count
}

impl Source for MemorySource {
    ghost left = { λ s. Some s.left };

    ghost faults = { λ s. s.faults };

    fn read(&mut self, buf: &mut [u8]) -> Result<usize, Failed>
        ensures bound { ReadsAtMost result buf.new }
        ensures bytes { ReadConsumes (Some self.old.left) (Some self.new.left) result buf.new }
        ensures tells { TellsStill (Some self.old.left) (Some self.new.left) }
        ensures cause { HasCause self.old.faults self.new.faults result }
        // It fails exactly where the number of the call is listed, and otherwise fills what it can.
        ensures exact { ReadsInput self.old self.new (length buf.old) result }
    {
        if self.calls.begin() {
            return Err(self.faults.fail());
        }
        let count = copy_front(&self.bytes[self.at..], buf);
        self.at += count;
        Ok(count)
    }
}
