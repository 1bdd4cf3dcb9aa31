//! The graph in memory, which inserts change row by row.
//!
//! A table keeps each point's Pid, tag, vector and neighbours in a row of its own, in order of Pid, and gives the graph
//! that its rows make. A change of one row leaves every other row as it is. Inserts link new points in it, walks and
//! prunes read it, and a full one is frozen from it.
#![tactic(auto)]

mod label;
mod links;
mod room;
mod table;
mod vectors;

pub use table::Table;
