//! Numbers that threads draw: each number below a limit is drawn once, by one claimer.
//!
//! [`Claims`] has one atomic word. [`Claims::draw`] adds 1 to it and gives what stood there, so no number is given
//! twice. The promise comes at [`Claims::close`]: once every claimer was told that nothing is left, the lists that
//! they have drawn hold each number below the limit, once. A merge stands on it: its workers draw the pieces of a
//! phase, and no piece is worked twice or left out.
#![tactic(auto)]

mod claims;
mod rule;

pub use claims::{Claimer, Claims};
