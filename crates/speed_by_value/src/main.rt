// The calls by value, to be timed, with one place in the program where a span is taken and one where it goes back, so that the compiler puts
// both calls into the loop. Rows of the input, of which six are read at most:
//
//   v RUN SIZE RECORDS CALLS          a run by value (`driving/src/progress.rt`)
//
// The oracle's `speed RUN SIZE RECORDS CALLS` does the same with the Rust, and prints the same two lines. docs/SPEED.md has the figures.
#![tactic(auto)]

use driving::by_value::ByValue;
use driving::{form, going_on};

fn main(rt: HostRuntime) {
    going_on::drive_all(&rt, b'v', form::drive::<ByValue>);
}
