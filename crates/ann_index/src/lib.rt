//! A streaming index of points, as a program embeds it: updates, searches and merges of one client (FreshDiskANN, section 5).
//!
//! An [`Index`] is opened from the parts that `ann_recover` makes of a place. [`Index::update`] judges changes and logs them in
//! one frame; [`Index::search`] finds the nearest points and leaves them on the index's desk; [`Index::merge`] moves what is in
//! memory into a new segment, by as many threads as it is given; and [`Index::close`] gives all parts back. An answer is always
//! that of a list of entries: what was acknowledged is in the log, and a crash leaves it there.
#![tactic(auto)]

mod begin;
mod close;
mod ending;
mod index;
mod merging;
mod refusal;
mod search;
mod update;
mod working;

pub use ann_beam::SearchRefused;
pub use ann_journal::{Receipt, UpdateRefused};
pub use ann_view::Found;
pub use close::Closed;
pub use index::Index;
pub use refusal::{MergeRefused, Merged, OpenRefused};
