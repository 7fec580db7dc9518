// Reads the oracle's list of size classes from standard input and says how many of its rows agree with the port.
#![tactic(auto)]

use oracle_lists::classes::Comparison;
use oracle_lists::input;

fn main(rt: HostRuntime) {
    let mut comparison = Comparison::new();
    input::for_each_block(&rt, |bytes| comparison = comparison.feed_all(bytes));
    input::print_outcome_and_go_on(&rt, comparison.tally, comparison.reader);
}
