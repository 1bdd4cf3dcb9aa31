//! Tests of scripts and transcripts: what is read of a text, the updates of a fill, and the text of each reply.
//!
//! They stand in a crate of their own, since a check of a crate's tests proves the whole crate once more.
#![tactic(auto)]

#[cfg(test)]
mod filling;
#[cfg(test)]
mod outside;
#[cfg(test)]
mod script;
#[cfg(test)]
mod transcript;
