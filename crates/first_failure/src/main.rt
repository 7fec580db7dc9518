// What hands on the first failure, beside what goes on behind one: rows answered, runs driven and an outcome printed, on a stream that is full after
// so many prints. Each row of the input ends in a number of its own, so that what is printed shows which rows each call has read; a line of 64 bytes
// that is no row is read as one, and passed over.
#![tactic(auto)]

mod full;

use driving::progress::Draws;
use driving::rows::Plan;
use driving::{going_on, rows};
use full::Full;
use oracle_lists::input;
use oracle_lists::rows::Reader;
use oracle_lists::tally::Tally;
use std::io;
use std::io::ErrorKind;

fn tell(rt: &impl Print, what: &str, answer: io::Result<()>) {
    let _ = match answer {
        Ok(()) => println!(rt; "{what}: ok"),
        Err(why) if why.kind() == ErrorKind::StorageFull => println!(rt; "{what}: full"),
        Err(_) => println!(rt; "{what}: another failure"),
    };
}

fn tell_next(rt: &impl Print) {
    let _ = println!(rt; "the row behind: {}", rows::next().d);
}

fn answer(rt: &impl Print, row: Reader) -> io::Result<()> {
    println!(rt; "row {}", row.d)
}

fn answers(rt: &impl Print) {
    let full = Full::new(rt, 1);
    tell(rt, "each_row", rows::each_row(4, |row| answer(&full, row)));
    tell_next(rt);
    tell(rt, "each_row", rows::each_row(3, |row| answer(rt, row)));
    let full = Full::new(rt, 1);
    going_on::for_each_row(4, |row| {
        let _ = answer(&full, row);
    });
    let _ = println!(rt; "for_each_row: tried {}", full.tried());
}

// In place of a run: the last number of the row.
fn drive(plan: Plan) -> Draws {
    Draws {
        sum: plan.calls,
        ..Draws::new(plan.run)
    }
}

fn drives(rt: &impl Print) {
    // full at a run, and at a row of another letter
    for _ in 0..2 {
        let full = Full::new(rt, 1);
        tell(rt, "drive_each", rows::drive_each(&full, b'v', drive));
        tell_next(rt);
    }
    tell(rt, "drive_each", rows::drive_each(rt, b'v', drive));
    let full = Full::new(rt, 1);
    going_on::drive_all(&full, b'v', drive);
    let _ = println!(rt; "drive_all: tried {}", full.tried());
    going_on::drive_all(rt, b'v', drive);
}

fn outcome(rt: &impl Print, room: u32, reader: Reader) {
    let full = Full::new(rt, room);
    let answer = input::print_outcome(&full, Tally::new(), reader);
    let _ = println!(rt; "print_outcome: tried {}", full.tried());
    tell(rt, "print_outcome", answer);
    let full = Full::new(rt, room);
    input::print_outcome_and_go_on(&full, Tally::new(), reader);
    let _ = println!(rt; "print_outcome_and_go_on: tried {}", full.tried());
}

fn main(rt: HostRuntime) {
    answers(&rt);
    drives(&rt);
    // two prints where what was read is no list, and one where it is
    for room in 0..3 {
        outcome(&rt, room, Reader::new().feed(b'!'));
    }
    outcome(&rt, 1, Reader::new());
}
