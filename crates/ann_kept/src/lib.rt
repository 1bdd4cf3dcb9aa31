//! What a vault must hold for a list, so that it opens again: how that goes on while a merge works, at the merge's End, and
//! when a segment is removed. All of it is laws, each the contract of a function that does nothing.
#![tactic(auto)]

mod ended;
mod unnamed;

pub use ended::ending;
pub use unnamed::{keeping, retiring, working};
