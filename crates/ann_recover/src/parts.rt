use ann_disk::LogFile;
use ann_log::Log;
use ann_tags::Tags;
use ann_vault::{Eye, Sealed, Vault};
use ann_view::View;

/// The parts of an index that was opened.
#[derive(Drop)]
pub struct Parts<F: LogFile, V: Vault, E: Drop> {
    /// The log.
    pub log: Log<F>,
    /// The sealed segments.
    pub vault: V,
    /// The readers of the segments; the first one was used.
    pub eyes: Vec<E>,
    /// The view of the log's list.
    pub view: View<V::Seal>,
    /// The live tags.
    pub tags: Tags,
    /// The position of the open Begin, if there is one.
    pub begun: Option<u64>,
}
