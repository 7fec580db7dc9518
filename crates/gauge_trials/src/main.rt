// Reads the oracle's list of gauge readings from standard input, makes each reading in place and by value, and says how many of the rows agree.
#![tactic(auto)]

mod counts;
mod forms;
mod rows;

use oracle_lists::input;
use rows::Comparison;

fn print_outcome(rt: &impl Print, comparison: Comparison) {
    let tally = comparison.tally;
    let counts = comparison.counts;
    let _ = println!(rt; "rows {}", tally.rows);
    let _ = println!(rt; "agreed {}", tally.agreed);
    let _ = println!(rt; "readings in each form {}", counts.readings);
    let _ = println!(rt; "answers agreed {}", counts.told);
    let _ = println!(rt; "refused as 2 {}", counts.short);
    let _ = println!(rt; "refused as 6 {}", counts.unsound);
    let _ = println!(rt; "gauges agreed {}", counts.kept);
    let _ = println!(rt; "levels that stand still {}", counts.still);
    let _ = println!(rt; "other {}", tally.other);
    if let Some(row) = tally.first {
        let _ = println!(rt; "first at row {row}");
    }
    if !comparison.reader.ends_well() {
        let _ = println!(rt; "spoiled after row {}", tally.rows);
    }
}

fn main(rt: HostRuntime) {
    let zeros = [0u32; rows::WORDS];
    let mut comparison = Comparison::new();
    input::for_each_block(&rt, |bytes| comparison.feed_all(bytes, &zeros));
    print_outcome(&rt, comparison);
}
