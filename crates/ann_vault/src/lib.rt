//! Segments at rest: bytes that are sealed under a number, and the eyes that read them.
//!
//! A `Vault` writes drafts and seals them whole or not at all, an `Eye` reads what is sealed and counts its reads. The
//! count is the measure of the disk graph: a search reads exactly the points that its definition visits. `MemoryVault`
//! and `MemoryEye` tell what they hold and fail where a test wants it; they are proved against the traits. `FolderVault`
//! and `FolderEye` are the current folder, of whose content nothing is claimed. Segments, views, merges and recovery
//! stand on this crate.
#![tactic(auto)]

mod eye;
mod folder;
mod folder_eye;
mod memory;
mod memory_eye;
mod sealed;
mod shelf;
mod vault;

pub use ann_fault::Failed;
pub use eye::Eye;
pub use folder::{FolderDraft, FolderSeal, FolderVault};
pub use folder_eye::FolderEye;
pub use memory::{MemoryDraft, MemoryVault};
pub use memory_eye::MemoryEye;
pub use sealed::Sealed;
pub use shelf::MemorySeal;
pub use vault::{NumbersRefused, Vault};
