//! The outside: where bytes come from and where they go.
//!
//! `Source` and `Sink` are the traits, `MemorySource` and `MemorySink` their forms in memory, of which a test makes some
//! calls fail, and `StdSource` and `StdSink` are standard input and output. Each counts its faults by the law of
//! `ann_fault`. `write_all` writes all of its bytes, or a front of them where a write failed. The program's commands
//! that read and write stand on these.
#![tactic(auto)]

mod memory_sink;
mod memory_source;
mod sink;
mod source;
mod std_sink;
mod std_source;

pub use ann_fault::Failed;
pub use memory_sink::MemorySink;
pub use memory_source::MemorySource;
pub use sink::{Sink, write_all};
pub use source::Source;
pub use std_sink::StdSink;
pub use std_source::StdSource;
