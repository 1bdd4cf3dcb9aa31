//! The workers of a merge: threads that draw the pieces of a phase, each with what it works by.
//!
//! [`run`] lends each of up to sixteen threads a worker of its own. The pieces are numbers that the threads draw, so
//! that each piece is done once by one of them, whatever the order in which they come. The results stand in order of
//! their numbers, so nothing that is made of them depends on how the threads interleave.
#![tactic(auto)]

mod crew;
mod gate;
mod member;
mod order;
mod task;

pub use crew::run;
pub use gate::{Gate, NoGate, Spot};
pub use task::{Stretch, Task};
