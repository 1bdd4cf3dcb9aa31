//! Making an empty index from a codebook that comes from an input.
//!
//! `init` reads the codebook's bytes, tests them, and makes a log without entries in two files. The input is at fault
//! before any call of the files, so its faults leave them alone; an index that is there is refused and left as it is; and
//! a crash at any moment leaves no index or an empty one. The files come back in each case.
#![tactic(auto)]

mod book;
mod input;
mod making;
mod refused;

pub use making::{InitEnd, init};
pub use refused::{BookFault, InitWhy};
