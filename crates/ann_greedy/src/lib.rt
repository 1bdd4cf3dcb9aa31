//! The walk through a graph to the points near a query (GreedySearch of DiskANN, section 2.1).
//!
//! A graph is anything that gives rows of vectors and neighbours. The walk keeps its candidates in a pool of bounded
//! size and still leaves exactly what the definition gives, which keeps every point ever met. Inserts, searches and
//! merges all walk by this one function.
#![tactic(auto)]

mod graph;
mod greedy;

pub use graph::Graph;
pub use greedy::{walk, walk_visited};
