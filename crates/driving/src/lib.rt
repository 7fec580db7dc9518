// For the programs that are timed: a run of seeded takes and returns, in each form of the calls. Every kind of run goes through one loop, so that
// a form has one place here where a span is taken and one where it goes back.
#![tactic(auto)]

pub mod again;
pub mod by_value;
pub mod form;
pub mod going_on;
pub mod held;
pub mod in_place;
pub mod lent;
pub mod progress;
pub mod rows;
