// One run: Pids in order, which never change and may be shared.
ghost use Rattle.std.specs.Prelude.{◌≡◌, [], IfOk};
ghost use Rattle.ann_types.specs.Order.{has};
ghost use Rattle.ann_dead.specs.Run.{IsRun};

use std::alloc::AllocError;
use std::marker::Model;
use std::sync::ArcSlice;

// A run that was never made has no Pids: the places inside a `SmallVec` hold such runs until they are used.
#[derive(Drop)]
pub(crate) struct Run {
    pids: Option<ArcSlice<u32>>,
}

impl Model for Run {
    ghost use Rattle.std.specs.Prelude.{List, ℕ};

    ghost Value = { List ℕ };

    ghost use Rattle.ann_dead.specs.Run.{pids_in, IsRun};

    ghost view = { λ r. pids_in r.pids };

    ghost invariant = { λ r. IsRun (pids_in r.pids) };
}

impl Default for Run {
    ghost is_default = { λ r. r ≡ [] };

    fn default() -> Run {
        Run { pids: None }
    }
}

impl Run {
    pub(crate) fn new(pids: Vec<u32>) -> Result<Run, AllocError>
        requires { IsRun pids.items }
        ensures { IfOk result (λ run. run ≡ pids.items) }
    {
        let pids = ArcSlice::from_vec(pids)?;
        Ok(Run { pids: Some(pids) })
    }

    pub(crate) fn pids(&self) -> &[u32]
        ensures value { result.now ≡ self.now }
        ensures run { IsRun self.now }
    {
        match &self.pids {
            Some(pids) => pids.as_slice(),
            None => &[],
        }
    }

    // One more owner of the same Pids.
    pub(crate) fn share(&self) -> Result<Run, AllocError>
        ensures { IfOk result (λ run. run ≡ self.now) }
    {
        let Some(pids) = &self.pids else {
            return Ok(Run { pids: None });
        };
        let pids = pids.clone()?;
        Ok(Run { pids: Some(pids) })
    }

    // A binary search.
    pub(crate) fn contains(&self, pid: u32) -> bool
        ensures { result ≡ has self.now pid }
    {
        self.pids().binary_search(&pid).is_ok()
    }
}
