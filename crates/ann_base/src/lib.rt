//! Opening the segments that a log names: the base's with the tags of its points, and that of the last merge.
//!
//! `open_base` reads the node blocks of the base's segment piece by piece, and names the first block that is at fault
//! (specs/Faults.antt). What it gives is the graph of a base, whether or not the vault tells its bytes. Where it tells them, it
//! is the graph of the node blocks, and so the sealed one where they are the text of a graph. `open_below` reads no node block:
//! of a segment that a merge made, the tags are known from the log.
#![tactic(auto)]

mod base;
mod front;
mod refused;
mod tags;

pub use base::{Grounded, open_base};
pub use front::open_below;
pub use refused::BaseRefused;
