// Reads the oracle's list of spoiled tables from standard input and says how many of its rows agree with the audit.
#![tactic(auto)]

mod parts;
mod rows;

use oracle_lists::input;
use rows::Comparison;

fn main(rt: HostRuntime) {
    let mut comparison = Comparison::new();
    input::for_each_block(&rt, |bytes| comparison.feed_all(bytes));
    input::print_outcome_and_go_on(&rt, comparison.read.tally, comparison.read.reader);
}
