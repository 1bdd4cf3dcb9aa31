//! Faults of devices, and how they are counted.
//!
//! A device is an input, an output, a file of the log, a vault or an eye. Each counts its faults, and the count stays at
//! `2^64 - 1`. `HasCause`, in specs/Counts.antt, is the law of every call of a device: a success leaves the count, and a
//! failure is one fault more. `Failed` is the answer of a call that failed, `Faults` is the count, and `Calls` is for the
//! devices in memory, of whose calls a test makes some fail. The device crates stand on this one.
#![tactic(auto)]

mod calls;
mod faults;

pub use calls::Calls;
pub use faults::{Failed, Faults};
