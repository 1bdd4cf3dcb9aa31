//! The view of a streaming index: the graphs in memory, the delete list and the long-term graph on the disk, as the log
//! leaves them at one moment.
//!
//! A [`View`] goes from the state of a list of entries to the state of the list with one entry more by
//! [`View::apply`], and answers searches from that state (FreshDiskANN, section 5). It is read while it is shared, so a
//! search works on a desk of its own.
#![tactic(auto)]

mod apply;
mod collect;
mod collect_refused;
mod frozen_list;
mod near;
mod op;
mod open_merge;
mod pinned;
mod points;
mod search;
mod temp;
mod view;

pub use collect_refused::CollectRefused;
pub use op::Op;
pub use pinned::Pinned;
pub use points::PointList;
pub use search::Found;
pub use view::View;
