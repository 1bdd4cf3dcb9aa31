//! The writer of a value that readers take without waiting, as a value that can lie under a lock and be dropped.
//!
//! The writer of `left_right` is moved by each of its calls, and its end waits for the readers. A [`Pen`] keeps it with the
//! handle by which it waits, so that its calls take `&mut self` and its end is a drop. A server's lock holds one.
#![tactic(auto)]

mod pen;

pub use pen::Pen;
