//! The log of an index: entries on a base, in two files of which one is the log at a time.
//!
//! A `Log` is opened from its files or made in them, and extended a frame of entries at a time. Each frame is on the disk
//! before its gate is opened, so a crash at any moment of `append` leaves the list from before it or the list with the
//! whole frame. What two files of bytes stand for is settled in specs/Text.antt, and what a crash leaves of both in
//! specs/Pairs.antt. `append` and `renew` take no memory.
#![tactic(auto)]

mod append;
mod files;
mod inspect;
mod log;
mod make;
mod open;
mod read;
mod refused;
mod renew;
mod room;
mod write;

pub use ann_frame::Entries;
pub use ann_preamble::Base;
pub use files::Files;
pub use inspect::{Inspected, inspect_log};
pub use log::Log;
pub use refused::{Disk, MakeRefused, MakeWhy, OpenRefused, OpenWhy};
