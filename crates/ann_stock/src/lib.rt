//! What an index keeps to merge, beside its log and its view: the vault and the eyes of the workers, and the segments that
//! are retired.
//!
//! The vault and the eyes are at hand, in a job that was given back, or out with a job. The old segment of each merge that
//! ended is retired, and [`Stock::clear`] removes it from the vault once nobody else holds it.
#![tactic(auto)]

mod clear;
mod stock;
mod tools;

pub use stock::Stock;
pub use tools::StockParts;
