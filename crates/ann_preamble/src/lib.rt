//! The preamble with which a log file begins: the parameters, the codebook, the generation and the base, up to the first
//! gate.
//!
//! `Preamble::read` gives the preamble with which bytes begin, of version 1 or 2, exactly where they begin with one.
//! `write` writes one of version 2 with a closed made byte; once that byte is open it is read again, whatever stands
//! behind it. Bytes that agree up to the first gate have the same preamble. `choose` says which of two files is the log.
#![tactic(auto)]

mod base;
mod choice;
mod fields;
mod preamble;
mod writing;

pub use base::Base;
pub use choice::{Side, choose};
pub use preamble::Preamble;
pub use writing::{size, write};
