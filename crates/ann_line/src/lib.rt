//! The list of a log as many know it at once: one keeper adds to it, and anyone may copy a front of it, which is a
//! beginning of the list, and compare two fronts.
//!
//! A [`Keeper`] has the whole list and the right to add to it. Nobody else can add, so each [`Front`] begins what the keeper
//! has: that is the promise of [`Keeper::covers`]. A server stands on it: a search finds the front of the state that it read,
//! and whoever holds the writer's lock holds the keeper.
//!
//! The entries of the list exist in the proofs alone. At run time a front is the length of its list, and the keeper a word
//! besides, on which its steps are made.
#![tactic(auto)]

mod front;
mod history;
mod keeper;
mod name;
#[cfg(test)]
mod tests;

pub use front::Front;
pub use keeper::{Keeper, Opened};
pub use name::ListName;
