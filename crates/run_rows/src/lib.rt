// What the rows of the list of runs ask: the call that a row stands for, which forms of the calls are asked it, and whether the rows of a full report
// are all there. `trials` makes the calls; that rows are read rightly is proved here.
#![tactic(auto)]

pub mod asked;
pub mod forms;
pub mod full;
