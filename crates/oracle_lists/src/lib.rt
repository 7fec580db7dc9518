// The oracle's lists, as its programs write them: rows are read byte by byte, each is compared with the port, and the verdicts are counted.
#![tactic(auto)]

pub mod classes;
pub mod input;
pub mod rows;
pub mod tally;
