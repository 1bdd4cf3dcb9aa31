//! The squared distance of two vectors of bytes, sixteen components at a time.
//!
//! Everything that compares vectors stands on this one kernel: walks, prunes, reranking and codes.
#![tactic(auto)]

mod kernel;

pub use kernel::{squared, squares_of, touched};
