//! The set of deleted Pids, which a search leaves out of its answer (FreshDiskANN, the DeleteList).
//!
//! A [`Dead`] is seen as a set of Pids. It keeps them in sorted runs that never change, each shared by all who hold
//! it, so a search pins the whole set by one count a run ([`Dead::pin`]) while updates go on. The sizes of the runs
//! are the binary digits of the number of Pids: there are at most 32, and adding a Pid merges runs as adding 1 carries
//! digits.
#![tactic(auto)]

mod carry;
mod dead;
mod deleted;
mod merge;
mod pin;
mod run;

pub use dead::Dead;
pub use deleted::Deleted;
pub use pin::DeadPin;
