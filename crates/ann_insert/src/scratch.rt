ghost use Rattle.std.specs.Prelude.{IfOk};

use ann_pool::Pool;
use ann_prune::Candidates;
use arrayvec::ArrayVec;
use std::alloc::{AllocError, Global};

/// What inserts work with, made once: the pool and the visited rows of a walk, the candidates of a prune, and what a
/// prune keeps.
///
/// It says nothing of an index, so one serves for any table.
#[derive(Drop)]
pub struct PutScratch {
    pub(crate) pool: Pool,
    pub(crate) visited: Vec<u32>,
    pub(crate) candidates: Candidates,
    pub(crate) kept: ArrayVec<u32, 128>,
    pub(crate) kept_back: ArrayVec<u32, 128>,
}

impl PutScratch {
    ghost use Rattle.ann_insert.specs.Scratch.{IsEmpty};

    /// A scratch for inserts, without anything in it. The only error is want of memory.
    pub fn new(alloc: Global) -> Result<PutScratch, AllocError>
        ensures { IfOk result IsEmpty }
    {
        Ok(PutScratch {
            pool: Pool::with_room(alloc)?,
            visited: Vec::new(alloc),
            candidates: Candidates::new(alloc)?,
            kept: ArrayVec::new(),
            kept_back: ArrayVec::new(),
        })
    }
}
