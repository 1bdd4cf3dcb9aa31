ghost use Rattle.std.specs.Prelude.{◌≡◌, [], IfOk};

use ann_prune::Candidates;
use arrayvec::ArrayVec;
use std::alloc::{AllocError, Global};
use std::marker::Model;

/// The most rows of a piece, with a block of 4096 bytes each.
const ROOM: usize = 256 * 4096;

/// The node blocks of a piece, side by side, and what they are made with. Contracts see the bytes of the blocks.
#[derive(Drop)]
pub struct PieceBlocks {
    pub(crate) bytes: Vec<u8>,
    pub(crate) scratch: Scratch,
}

/// What the blocks of a piece are made with: the candidates of a prune, the list of a row, and a block that was read.
#[derive(Drop)]
pub(crate) struct Scratch {
    pub(crate) candidates: Candidates,
    pub(crate) list: ArrayVec<u32, 128>,
    pub(crate) page: [u8; 4096],
}

impl Model for PieceBlocks {
    ghost use Rattle.std.specs.Prelude.{ℕ, List};

    ghost Value = { List ℕ };

    ghost view = { λ b. b.bytes.items };
}

impl PieceBlocks {
    /// No blocks, with room for 256. The only error is want of memory.
    pub fn new(alloc: Global) -> Result<PieceBlocks, AllocError>
        ensures { IfOk result (λ blocks. blocks ≡ []) }
    {
        Ok(PieceBlocks {
            bytes: Vec::with_capacity(alloc, ROOM)?,
            scratch: Scratch {
                candidates: Candidates::new(alloc)?,
                list: ArrayVec::new(),
                page: [0; 4096],
            },
        })
    }

    /// The bytes of the blocks, 4096 each.
    pub fn bytes(&self) -> &[u8]
        ensures { result.now ≡ self.now }
    {
        &self.bytes
    }
}
