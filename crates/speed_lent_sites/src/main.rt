// The runs of `speed_lent`, to be timed in a program that takes and hands back in a second place too, so that the compiler leaves both calls out of
// line. Rows of the input, of which six are read at most:
//
//   l RUN SIZE RECORDS CALLS          a run with all of the head lent (`driving/src/progress.rt`)
//   o SIZE RECORDS LENGTH HANDLE      one take and one return, in a store of 8 records at most
//
// docs/SPEED.md has the figures.
#![tactic(auto)]

mod once;

use driving::lent::Lent;
use driving::rows::Plan;
use driving::{form, going_on, rows};
use oracle_lists::rows::Reader;

fn answer(rt: &impl Print, row: Reader) {
    let _ = match (row.letter, row.fields) {
        (b'l', 4) => println!(rt; "{}", form::drive::<Lent>(Plan::from(row))),
        (b'o', 4) => println!(rt; "refusal {}", once::drive(row.a, row.b, row.c, row.d)),
        _ => println!(rt; "a row is l RUN SIZE RECORDS CALLS or o SIZE RECORDS LENGTH HANDLE"),
    };
}

fn main(rt: HostRuntime) {
    going_on::for_each_row(rows::MOST_ROWS, |row| answer(&rt, row));
}
