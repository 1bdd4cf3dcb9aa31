//! Opening an index again: from the files of its log, its sealed segments and its eyes to the parts that answer as before.
//!
//! `recover` opens the log, reads its base and its entries, makes the view of them, writes the log anew where its list has a
//! merge that ended or its file is of version 1, and removes the segments that nobody names. A refusal gives all parts back,
//! and a crash at any moment leaves files that read as before or as the log that was written anew (specs/Renewal.antt). What a
//! place is that opens again is settled in specs/Places.antt, and what its index is then in specs/Opened.antt.
//!
//! `inspect` reads the same files and segments, and each node block besides, and writes nothing (specs/Inspected.antt).
#![tactic(auto)]

mod load;
mod looking;
mod parts;
mod recovering;
mod refused;
mod renewal;
mod revive;
mod settle;
mod verify;

pub use looking::{Summary, inspect};
pub use parts::Parts;
pub use recovering::recover;
pub use refused::{RecoverRefused, RecoverWhy};
