//! The steps by which an index is opened again, once the entries of its log were judged.
//!
//! `cut_tail` leaves of a list what stands behind the Begin of its last merge, without that merge's End. `resume` makes the
//! view of these entries on the merge's segment, or of all entries on the base: by the replay law of `ann_laws` it stands for
//! the whole list. `remove_others` removes the sealed segments that nobody names.
#![tactic(auto)]

mod apply;
mod cut;
mod refused;
mod remove;
mod view;

pub use cut::cut_tail;
pub use refused::RemoveRefused;
pub use remove::remove_others;
pub use view::{Start, resume};
