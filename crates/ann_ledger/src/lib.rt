//! What an index keeps beside its view: its log and what is known of the log's list, and the vault and the eyes by which it
//! merges.
//!
//! A [`Ledger`] judges updates and logs them, begins and ends merges, and removes segments that no list names any more. It
//! keeps no view: what was logged waits in its journal, and whoever owns the ledger shows each operation, in order, where the
//! view is. It takes all memory that a call needs behind its append before it. Between two calls a vault at hand holds what
//! each list names for which a crash then leaves the log.
#![tactic(auto)]

mod clear;
mod finish;
mod ledger;
mod merge;
mod open;
mod refused;

pub use ledger::Ledger;
pub use open::Opened;
pub use refused::{FinishRefused, FinishWhy, NotReady, Unopened};
