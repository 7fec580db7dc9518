// The calls of `host_spans` once more, with the head by value underneath: each takes a copy of the arrays that the program keeps, makes the call on it,
// and puts back what comes out. They are functions of their own, and so are those of `host_by_value_c`, for C knows each by its
// name. Answers are the same, but that a refused setup leaves a head of zeros, its arrays too.
#![tactic(auto)]

pub mod changes;
pub mod heads;
pub mod questions;
pub mod setups;
