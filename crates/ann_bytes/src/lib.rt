//! Fields of two, four and eight bytes in the product's files: little-endian numbers, the lowest byte first.
//!
//! `get_u16`, `get_u32` and `get_u64` give the number that stands at a place, and are refused exactly where too few
//! bytes remain there. `put_u16`, `put_u32` and `put_u64` write one, and leave every other byte. What was put is got
//! again. Every format of the product is stated by `number_of` and `bytes_of`, in specs/LittleEndian.antt.
#![tactic(auto)]

mod get;
mod put;

pub use get::{Short, get_u16, get_u32, get_u64};
pub use put::{put_u16, put_u32, put_u64};
