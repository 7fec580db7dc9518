// The runs of `speed_by_value`, to be timed in a program that takes and hands back in a second place too, so that the compiler leaves both calls
// out of line. Rows of the input, of which six are read at most:
//
//   v RUN SIZE RECORDS CALLS          a run by value (`driving/src/progress.rt`)
//   o SIZE RECORDS LENGTH HANDLE      one take and one return, in a store of 8 records at most
//
// docs/SPEED.md has the figures.
#![tactic(auto)]

mod once;

use driving::by_value::ByValue;
use driving::rows::Plan;
use driving::{form, going_on, rows};
use oracle_lists::rows::Reader;

fn answer(rt: &impl Print, row: Reader) {
    let _ = match (row.letter, row.fields) {
        (b'v', 4) => println!(rt; "{}", form::drive::<ByValue>(Plan::from(row))),
        (b'o', 4) => println!(rt; "refusal {}", once::drive(row.a, row.b, row.c, row.d)),
        _ => println!(rt; "a row is v RUN SIZE RECORDS CALLS or o SIZE RECORDS LENGTH HANDLE"),
    };
}

fn main(rt: HostRuntime) {
    going_on::for_each_row(rows::MOST_ROWS, |row| answer(&rt, row));
}
