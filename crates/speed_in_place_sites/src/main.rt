// The runs of `speed_in_place`, to be timed in a program that takes and hands back in a second place too, so that the compiler leaves both calls
// out of line; and setups and audits, which have that second place. Rows of the input, of which six are read at most:
//
//   p RUN SIZE RECORDS CALLS          a run in place (`driving/src/progress.rt`)
//   a SETUPS AUDITS                   so many setups with 131,072 records, then so many audits
//
// docs/SPEED.md has the figures.
#![tactic(auto)]

mod audits;

use driving::in_place::InPlace;
use driving::rows::Plan;
use driving::{form, going_on, rows};
use oracle_lists::rows::Reader;

fn answer(rt: &impl Print, row: Reader) {
    let _ = match (row.letter, row.fields) {
        (b'p', 4) => println!(rt; "{}", form::drive::<InPlace>(Plan::from(row))),
        (b'a', 2) if audits::drive(row.c, row.d) => println!(rt; "sound"),
        (b'a', 2) => Ok(()),
        _ => println!(rt; "a row is p RUN SIZE RECORDS CALLS or a SETUPS AUDITS"),
    };
}

fn main(rt: HostRuntime) {
    going_on::for_each_row(rows::MOST_ROWS, |row| answer(&rt, row));
}
