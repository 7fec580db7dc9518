// What a program in C or Rust links with to give out spans: size classes, the lengths of its tables, every call in place, and take and hand back once more
// with the scalars lent all the way down.
//
// No function asks anything of its caller but what the C signature says: pointers to as much as it names, none of which overlap. A handed-back offset or
// record, a size, tables with anything in them: each is answered.
#![tactic(auto)]

pub mod changes;
pub mod classes;
pub mod lent;
pub mod questions;
pub mod setups;
