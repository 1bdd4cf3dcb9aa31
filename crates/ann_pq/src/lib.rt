//! Codes of vectors over a codebook, and distances to codes (product quantisation; DiskANN, section 3.1).
//!
//! A codebook has 256 centroids for each part of a vector. `Codebook::read` makes one from its bytes, or names their
//! first fault. `code` names for each part the nearest centroid, `decode` joins the centroids that a code names, and
//! `Tables` give the distance of a query to a decoded code by one number for each part. Only reading, copying and making
//! tables take memory.
#![tactic(auto)]

mod check;
mod codebook;
mod least;
mod refused;
mod tables;
mod turned;

pub use codebook::Codebook;
pub use refused::CodebookRefused;
pub use tables::Tables;
