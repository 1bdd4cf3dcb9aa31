// The calls of a device in memory.
ghost use Rattle.std.specs.Prelude.{◌≡◌, ◌↔◌, IfOk, IsTrue};
ghost use Rattle.ann_fault.specs.Counts.{next_count};

use std::alloc::{AllocError, Global};

/// How often a device in memory was called, and which of its calls fail.
#[derive(Drop)]
pub struct Calls {
    pub failing: Vec<u64>,
    pub made: u64,
}

impl Calls {
    ghost use Rattle.ann_fault.specs.Calls.{IsFresh, FailsNext, CountsCall};

    /// No call was made yet. Those with these numbers, from 1, will fail.
    ///
    /// The only error is want of memory.
    pub fn new(alloc: Global, failing: &[u64]) -> Result<Calls, AllocError>
        ensures { IfOk result (IsFresh failing.now) }
    {
        Ok(Calls {
            failing: failing.to_vec(alloc)?,
            made: 0,
        })
    }

    /// Counts a call, and says whether it is one of those that fail.
    pub fn begin(&mut self) -> bool
        ensures fails { IsTrue result ↔ FailsNext self.old }
        ensures counts { CountsCall self.old self.new }
    {
        self.made = self.made.saturating_add(1);
        let call = self.made;
        self.failing.iter().any(|&number| number == call)
    }
}
