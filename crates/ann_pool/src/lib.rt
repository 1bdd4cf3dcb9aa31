//! The candidate list of a walk: the least items of all that was offered, with marks on those that were visited.
//!
//! A pool keeps at most its limit of items, so a walk over it takes no memory; that this leaves every answer as it
//! is rests on one fact, that an item which has left the least never comes back while the offers only grow.
#![tactic(auto)]

mod item;
mod met;
mod pool;

pub use item::Item;
pub use pool::Pool;
