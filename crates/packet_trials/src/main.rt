// The packet calls, tried. The oracle's list of single calls is read from standard input, and for each call a line is printed: its answer, and of
// each store all its bytes, or `=` where none of them changed. The lines must be the oracle's.
#![tactic(auto)]

mod cases;
mod lines;

use journal_lines::Lines;

fn main() {
    cases::print(&mut Lines::new());
}
