// The calls in place, to be timed, with one place in the program where a span is taken and one where it goes back, so that the compiler puts
// both calls into the loop. Rows of the input, of which six are read at most:
//
//   p RUN SIZE RECORDS CALLS          a run in place (`driving/src/progress.rt`)
//
// The oracle's `speed RUN SIZE RECORDS CALLS` does the same with the Rust, and prints the same two lines. docs/SPEED.md has the figures.
#![tactic(auto)]

use driving::in_place::InPlace;
use driving::{form, going_on};

fn main(rt: HostRuntime) {
    going_on::drive_all(&rt, b'p', form::drive::<InPlace>);
}
