ghost use Rattle.std.specs.Prelude.{◌≡◌, ◌<◌, [], length, get_or, IfOk};

use crate::lists::Lists;
use ann_prune::Candidates;
use ann_types::Tag;
use arrayvec::ArrayVec;
use std::alloc::{AllocError, Global};
use std::marker::Model;

/// A piece of a segment: the tags and the lists of at most 256 rows side by side, and what it takes to make them.
///
/// One serves for all pieces that a worker does.
#[derive(Drop)]
pub struct Loaded {
    pub(crate) tags: Vec<Tag>,
    pub(crate) lists: Lists,
    pub(crate) page: Vec<u8>,
    pub(crate) candidates: Candidates,
    pub(crate) kept: ArrayVec<u32, 128>,
}

impl Model for Loaded {
    ghost use Rattle.std.specs.Prelude.{◌≤◌, length};
    ghost use Rattle.ann_mdelete.specs.Loaded.{LoadedView};

    ghost Value = { LoadedView };

    ghost view = { λ p. record { tags = p.tags.items; lists = p.lists; page = p.page.items } };

    ghost invariant = { λ p. length p.lists ≤ 256 };
}

impl Loaded {
    /// A piece without rows. The only error is want of memory.
    pub fn new(alloc: Global) -> Result<Loaded, AllocError>
        ensures { IfOk result (λ piece. piece ≡ record { tags = []; lists = []; page = [] }) }
    {
        Ok(Loaded {
            tags: Vec::new(alloc),
            lists: Lists::new(alloc),
            page: Vec::new(alloc),
            candidates: Candidates::new(alloc)?,
            kept: ArrayVec::new(),
        })
    }

    /// How many lists there are, at most 256: one for each row that was loaded, or for each that survives.
    pub fn count(&self) -> u32
        ensures { result ≡ length self.now.lists }
    {
        self.lists.len() as u32
    }

    /// The tag of a row that was loaded, counted from the first one.
    pub fn tag(&self, i: u32) -> Tag
        requires { i < length self.now.tags }
        ensures { result ≡ get_or self.now.tags i 0 }
    {
        self.tags[i as usize]
    }

    /// The list of a row, counted from the first one.
    pub fn list(&self, i: u32) -> &[u32]
        requires { i < length self.now.lists }
        ensures { result.now ≡ get_or self.now.lists i [] }
    {
        self.lists.get(i)
    }
}
