//! Serving the commands of one client.
//!
//! `serve` takes a client's commands in order, hands each to the client's `Connection`, and writes the line of its reply.
//! What the lines are worth is said by specs/Served.antt: they are right of every list that the run may leave, and each has
//! its cause.
#![tactic(auto)]

mod fill;
mod reply;
mod serving;
#[cfg(test)]
mod tests;

pub use serving::serve;
