//! The commands of the program, over any input, output and place.
//!
//! `run_alone` has the theorem from command words and script bytes to written bytes and the exit status. `is_run` and
//! `is_truth` say of the words of a command whether it is one of the two that work in several threads. The program makes
//! the real objects and calls these.
#![tactic(auto)]

mod check;
mod kinds;
mod owed;
mod place;
mod run;
mod words;

pub use kinds::{is_run, is_truth};
pub use place::Place;
pub use run::run_alone;
