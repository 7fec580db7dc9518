// The allocator with its head by value: each call takes the head, and those that can change it give it back beside their answer. Every call is
// a thin shell round the in-place one of the same name, which does the work; docs/SPEED.md says what the shell costs and when to use which.
#![tactic(auto)]

pub mod allocate;
pub mod audit;
pub mod free;
pub mod head;
pub mod questions;
pub mod setup;
