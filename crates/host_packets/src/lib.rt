// The packet layer for a program in C or Rust: two stores of bytes, each with an allocator's words beside it, and every packet call on them. A store is
// a number there, 0 for the one on the chip; a packet is that number, an offset and a record.
#![tactic(auto)]

pub mod changes;
pub mod filling;
pub mod questions;
pub mod reads;
pub mod setups;
pub mod values;
