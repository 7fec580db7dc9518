// A journal of calls for a program in C or Rust: records written, read, and replayed a step at a time. A call is three numbers there: its kind, as the
// journal has it, and its two fields, 0 where it has fewer.
#![tactic(auto)]

pub mod reading;
pub mod stepping;
pub mod writing;
