//! A client's connection to an index: what its commands go to, whether the index is the client's own or many share it.
//!
//! A [`Connection`] updates, searches and merges, and answers in the words of a transcript. What its client knows of the
//! list that the run will leave (`Known` of `ann_said`) grows with each call, and each answer is right of every list that the
//! run may leave. Who serves the commands of a script needs no more of an index (`ann_session`).
#![tactic(auto)]

mod connection;

pub use connection::Connection;
