// The set of deleted Pids.
ghost use Rattle.std.specs.Prelude.{◌≡◌, ◌↔◌, ℕ, ◌||◌, ◌&&◌, not, [], IsTrue, IfOk, OnOk, OnErr};
ghost use Rattle.ann_types.specs.Order.{has};
ghost use Rattle.ann_types.specs.Merge.{without};
ghost use Rattle.ann_dead.specs.Pids.{with_pid, IsAscending};

use crate::carry::carry;
use crate::run::Run;
use smallvec::SmallVec;
use std::alloc::{AllocError, Global};
use std::marker::Model;

/// A set of deleted Pids. A clause sees it as the ascending list of its Pids.
#[derive(Drop)]
pub struct Dead {
    // No Pid stands in two, and their sizes are the binary digits of the number of Pids, the greatest first.
    runs: SmallVec<Run, 32>,
}

impl Model for Dead {
    ghost use Rattle.std.specs.Prelude.{List, ℕ};

    ghost Value = { List ℕ };

    ghost use Rattle.ann_dead.specs.Pids.{union_of};
    ghost use Rattle.ann_dead.specs.Dead.{AreDigits};

    ghost view = { λ d. union_of d.runs.items };

    ghost invariant = { λ d. AreDigits d.runs.capacity d.runs.items };
}

impl Dead {
    /// The empty set. It takes no memory.
    pub fn new(alloc: Global) -> Dead
        ensures { result ≡ [] }
    {
        Dead {
            runs: SmallVec::new(alloc),
        }
    }

    /// Whether the Pid is in the set: at most 32 binary searches.
    pub fn contains(&self, pid: u32) -> bool
        ensures { result ≡ has self.now pid }
    {
        for run in self.runs.as_slice() {
            if run.contains(pid) {
                return true;
            }
        }
        false
    }

    /// Whether no Pid is in the set.
    pub fn is_empty(&self) -> bool
        ensures { IsTrue result ↔ (self.now ≡ []) }
    {
        self.runs.is_empty()
    }

    /// Adds a Pid. Where it is in the set already nothing changes.
    ///
    /// # Errors
    ///
    /// Only where there is no memory. The set is then as it was.
    pub fn add(&mut self, pid: u32) -> Result<(), AllocError>
        ensures added { OnOk result (self.new ≡ with_pid pid self.old) }
        ensures kept { OnErr result (self.new ≡ self.old) }
    {
        if self.contains(pid) {
            return Ok(());
        }
        let alloc = *self.runs.allocator();
        let (kept, last) = carry(alloc, self.runs.as_slice(), pid)?;
        self.runs.truncate(kept);
        self.runs.push_reserved(last);
        Ok(())
    }

    /// Removes every Pid that the other set has. All runs are made anew.
    ///
    /// # Errors
    ///
    /// Only where there is no memory. The set is then as it was.
    pub fn remove_all(&mut self, of: &Dead) -> Result<(), AllocError>
        ensures removed { OnOk result (self.new ≡ without of.now self.old) }
        ensures kept { OnErr result (self.new ≡ self.old) }
    {
        let mut left = Dead::new(*self.runs.allocator());
        for run in self.runs.as_slice() {
            left.add_all_but(run, of)?;
        }
        *self = left;
        Ok(())
    }

    // Adds the Pids of the run that the other set hasn't.
    fn add_all_but(&mut self, run: &Run, of: &Dead) -> Result<(), AllocError>
        requires { IsAscending self.old }
        ensures ascending { OnOk result (IsAscending self.new) }
        ensures members { OnOk result ((pid : ℕ) →
            has self.new pid ≡ (has self.old pid || (has run.now pid && not (has of.now pid)))) }
    {
        for pid in run.pids() {
            if !of.contains(*pid) {
                self.add(*pid)?;
            }
        }
        Ok(())
    }

    /// The same set once more. The two share their runs until one of them changes.
    ///
    /// # Errors
    ///
    /// Only where a run has too many owners.
    pub fn copy(&self) -> Result<Dead, AllocError>
        ensures { IfOk result (λ dead. dead ≡ self.now) }
    {
        let mut runs = SmallVec::new(*self.runs.allocator());
        for run in self.runs.as_slice() {
            runs.push(run.share()?)?;
        }
        Ok(Dead { runs })
    }
}
