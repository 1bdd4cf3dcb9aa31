//! Tests of the program's commands, over inputs, outputs and places in memory.
//!
//! They stand in a crate of their own, since a check of a crate's tests proves the whole crate once more.
#![tactic(auto)]

#[cfg(test)]
mod commands;
