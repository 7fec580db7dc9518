// The calls of `host_by_value` for a program in C or Rust, as a static library. The calls stand there, for `host_gauge` is built on them too, and no crate
// can be built on a static library.
#![tactic(auto)]

pub mod changes;
pub mod questions;
pub mod setups;
