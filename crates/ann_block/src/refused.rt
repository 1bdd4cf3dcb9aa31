ghost use Rattle.std.specs.Prelude.{◌≡◌};
ghost use Rattle.ann_block.specs.declared.refused.BlockRefused.TheVariants.{Length};

use ann_bytes::Short;
use thiserror::Error;

/// The first rule of the format that a block breaks.
#[derive(Clone, Copy, Debug, PartialEq, Eq, Error)]
pub enum BlockRefused {
    /// The block hasn't 4096 bytes.
    #[error("the block hasn't 4096 bytes")]
    Length,
    /// The block doesn't begin as a header does.
    #[error("the block doesn't begin as a segment's header")]
    Magic,
    /// A field of the header is outside its limits.
    #[error("a field of the header is outside its limits")]
    Shape,
    /// The block is another point's, or a neighbour is the point itself or no row.
    #[error("the block has a wrong point or neighbour")]
    Number,
    /// The point has too many neighbours.
    #[error("the point has too many neighbours")]
    Degree,
    /// The neighbours aren't strictly ascending.
    #[error("the neighbours aren't strictly ascending")]
    Order,
    /// A byte that has to be 0 isn't.
    #[error("a byte that has to be 0 isn't")]
    Padding,
}

impl From<Short> for BlockRefused {
    ghost from_gives = { λ _ e. e ≡ Length };

    fn from(_short: Short) -> Self {
        BlockRefused::Length
    }
}
