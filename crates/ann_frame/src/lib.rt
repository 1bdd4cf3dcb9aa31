//! The frames of the log as bytes, and back.
//!
//! A gate is one byte, and it is open where it is 0x01. Behind an open gate stands a frame: the length of its entries in
//! bytes (4), the entries, and the next gate. `write_frame` writes one, with a gate 0x00 behind it. `read_frames` gives
//! the entries of all frames up to the first gate that isn't open, or the number of the first entry that isn't in the
//! format. What bytes stand for is settled in specs/Text.antt; specs/TextOf.antt says the same as a function. No bytes
//! stand for two things, whole frames grow by a frame (proofs/Growing.antt), and behind a gate that isn't open anything
//! may stand.
#![tactic(auto)]

mod entries;
mod frames_refused;
mod gate;
mod reading;
mod writing;

pub use entries::Entries;
pub use frames_refused::FramesRefused;
pub use gate::{OPEN, SHUT};
pub use reading::{Frames, read_frames};
pub use writing::{frame_size, write_frame};
