//! Segments: a whole graph as blocks of 4096 bytes, a header, a directory and a node block for each row.
//!
//! A `SegmentWriter` puts the blocks into a draft of a vault and seals them, and `Segment::open` reads the header and the
//! directory of what is sealed, or names the first block that the format refuses. A `Segment` keeps its Pids and codes in
//! memory, as the full vectors stay on the disk (DiskANN, section 3.2). `Segment::verify` judges one node block. The text
//! of a graph stands in specs/Text, over lists of numbers. Only a directory, `start` and `open` take memory.
#![tactic(auto)]

mod directory;
mod fields;
mod opening;
mod refused;
mod segment;
mod writer;

pub use directory::Directory;
pub use refused::{SegmentRefused, VerifyRefused};
pub use segment::Segment;
pub use writer::SegmentWriter;
