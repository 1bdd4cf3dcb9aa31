//! The files of a log, by what their calls do and by what a crash may leave of them.
//!
//! `LogFile` is the model of a disk: a file that is read, written, cut and synced, and the images that a crash at any
//! moment may leave. `MemoryFile` keeps to it in memory, with calls that fail where a test wants it and with images to
//! open again; it is proved against the model. `DiskFile` is a file of the system, of whose content nothing is claimed.
//! The log stands on this crate, by `write_synced`, `cut_synced` and `cut_any`.
#![tactic(auto)]

mod disk;
mod file;
mod memory;
mod stretch;
mod synced;

pub use ann_fault::Failed;
pub use disk::DiskFile;
pub use file::LogFile;
pub use memory::MemoryFile;
pub use synced::{cut_any, cut_synced, write_synced};
