//! The Patch phase of a merge (StreamingMerge of FreshDiskANN, section 5.3): each row of the base gets the new points
//! that are linked to it, and the node blocks of the merged graph are made, piece by piece.
//!
//! `patch` gives the list of one row. A `PatchPlan` has all that the earlier phases of a merge have made, and
//! `patch_piece` leaves the node blocks of up to 256 merged rows in a `PieceBlocks`. The full vectors and the tags of the
//! survivors stay on the disk until then, and each is read once. Of a piece the node blocks are those that the text of the
//! merged graph has; the definition stands in `specs/Phase.antt`.
#![tactic(auto)]

mod blocks;
mod list;
mod piece;
mod plan;
mod row;

pub use blocks::PieceBlocks;
pub use list::patch;
pub use piece::patch_piece;
pub use plan::PatchPlan;
