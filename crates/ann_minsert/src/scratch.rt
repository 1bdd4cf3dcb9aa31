ghost use Rattle.std.specs.Prelude.{IfOk};

use ann_pool::Pool;
use ann_prune::Candidates;
use std::alloc::{AllocError, Global};

/// What links are made with, made once: the pool and the visited rows of a walk, the candidates of a prune, and the new
/// point's code and decoded vector.
///
/// It says nothing of an index, so one serves for any base. Once it has grown, a link takes no memory.
#[derive(Drop)]
pub struct LinkScratch {
    pub(crate) pool: Pool,
    pub(crate) visited: Vec<u32>,
    pub(crate) candidates: Candidates,
    pub(crate) code: Vec<u8>,
    pub(crate) own: Vec<u8>,
}

impl LinkScratch {
    ghost use Rattle.ann_minsert.specs.Scratch.{IsEmpty};

    /// A scratch for links, without anything in it. The only error is want of memory.
    pub fn new(alloc: Global) -> Result<LinkScratch, AllocError>
        ensures { IfOk result IsEmpty }
    {
        Ok(LinkScratch {
            pool: Pool::with_room(alloc)?,
            visited: Vec::new(alloc),
            candidates: Candidates::new(alloc)?,
            code: Vec::new(alloc),
            own: Vec::new(alloc),
        })
    }
}
