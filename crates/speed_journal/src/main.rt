// The calls of a journal, to be timed beside the bare calls of the same run (`speed_in_place`): each call is written as a record, read again and made.
// Rows of the input, of which six are read at most:
//
//   p RUN SIZE RECORDS CALLS          a run in place (`driving/src/progress.rt`)
//
// What is printed is the same as of the bare calls. docs/SPEED.md has the figures.
#![tactic(auto)]

mod journaled;

use driving::going_on;

fn main(rt: HostRuntime) {
    going_on::drive_all(&rt, b'p', journaled::drive);
}
