//! The blocks of a segment as bytes: its header block and its node blocks, written and read.
//!
//! Each block has 4096 bytes. What is written is exactly the block of the format, what is read is one, and what was
//! written is read again. A block outside the format is refused by the first rule that it breaks, in the order of
//! `judge_header` and `judge_node`. The formats stand in specs/, over lists of numbers. Nothing here takes memory.
#![tactic(auto)]

mod bytes;
mod header;
mod neighbours;
mod node;
mod refused;

pub use header::{Header, read_header, write_header};
pub use node::{Node, read_node, write_node};
pub use refused::BlockRefused;
