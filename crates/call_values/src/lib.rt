// Calls and their answers as values: what the rows of a list ask for, and what is held against them.
#![tactic(auto)]

pub mod answer;
pub mod call;
