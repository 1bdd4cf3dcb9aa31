//! The Insert phase of a streaming merge (FreshDiskANN, section 5.3): the base that new points are linked to, and their
//! links.
//!
//! The base is what is left of the long-term graph after the Delete phase, or, where nothing is left, a graph that the
//! first new points make. Its vectors are decoded codes, and it is entered at the row that is nearest to the mean of
//! all. Every other new point is linked to the base alone: it keeps of the rows that a walk for its full vector visits
//! what a robust prune over decoded vectors keeps. So the links of a point depend on no other new point, and pieces of
//! the new points can be linked side by side.
#![tactic(auto)]

mod beside;
mod decode;
mod first;
mod graph;
mod linking;
mod mean;
mod piece;
mod scratch;

pub use first::base;
pub use graph::Base;
pub use linking::link;
pub use mean::mean_entry;
pub use piece::link_piece;
pub use scratch::LinkScratch;
