// What a search asks of a set of deleted Pids.
ghost use Rattle.std.specs.Prelude.{◌≡◌, ℕ, List};
ghost use Rattle.ann_types.specs.Order.{has};

use crate::dead::Dead;
use crate::pin::DeadPin;

/// A set of deleted Pids, to be asked alone.
pub trait Deleted {
    // The set, as the ascending list of its Pids.
    ghost pids: { Self → List ℕ };

    /// Whether the Pid is in the set. It takes no memory.
    fn contains(&self, pid: u32) -> bool
        ensures { result ≡ has (pids self.now) pid };
}

impl Deleted for Dead {
    ghost pids = { λ dead. dead };

    fn contains(&self, pid: u32) -> bool {
        Dead::contains(self, pid)
    }
}

impl Deleted for DeadPin {
    ghost pids = { λ pin. pin };

    fn contains(&self, pid: u32) -> bool {
        self.dead.contains(pid)
    }
}
