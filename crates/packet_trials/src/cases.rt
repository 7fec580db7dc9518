// The oracle's list of single calls. A row is a letter and up to four numbers; a store is 0 on-chip and 1 external:
//
//   n                        begin anew: no stores, all bytes 7, all of them lent
//   b ON EX                  from now on so many bytes of each store are lent
//   c STORE COUNT            somebody writes this count into the head of the store
//   s STORE SIZE COUNT       set up this store
//   d SIZE COUNT SIZE COUNT  set up both
//   t SIZE                   take
//   h STORE OFFSET RECORD    hand back
//   f STORE OFFSET RECORD N  fill with N bytes, the first of which is the row's number modulo 256, and each other one more
//   r STORE OFFSET RECORD    read
//   l STORE OFFSET RECORD    length
//   q STORE                  report
//   a STORE                  audit
use crate::lines::Line;
use driving::rows;
use journal_lines::Lines;
use oracle_lists::rows::Reader;
use packet_copies::making::Asked;
use packet_copies::questions::Question;
use packet_copies::setting_up::Wanted;
use packet_copies::sides::{Side, Sides};
use packet_copies::{making, sides};
use packets::{Both, Packet, Store};
use std::fmt::Write;

// More rows than the list has.
const MOST: u32 = 2000;

// What a row asks for: a call, or that something else becomes of the stores.
#[derive(Clone, Copy)]
enum Row {
    Call(Asked),
    Anew,
    Lend(u32, u32),
    Count(Store, u32),
}

fn no_stores() -> Sides {
    Both {
        on_chip: sides::no_store(64),
        external: sides::no_store(64),
    }
}

fn packet(store: u32, offset: u32, record: u32) -> Packet {
    Packet::named(Store::from(store), offset, record)
}

// A row of three numbers: a call that names a packet, or a setup.
fn of_three(row: Reader) -> Option<Row> {
    let asked = match row.letter {
        b's' => Asked::SetUp(Store::from(row.b), row.c, row.d),
        b'h' => Asked::HandBack(packet(row.b, row.c, row.d)),
        b'r' => Asked::Ask(Question::Read(packet(row.b, row.c, row.d))),
        b'l' => Asked::Ask(Question::Length(packet(row.b, row.c, row.d))),
        _ => return None,
    };
    Some(Row::Call(asked))
}

fn of_four(row: Reader, number: u32) -> Option<Row> {
    let asked = match row.letter {
        b'd' => Asked::SetUpBoth(
            Wanted {
                size: row.a,
                max_allocs: row.b,
            },
            Wanted {
                size: row.c,
                max_allocs: row.d,
            },
        ),
        b'f' => {
            let first = (number % 256) as u8;
            Asked::Fill(packet(row.a, row.b, row.c), row.d as usize, first)
        }
        _ => return None,
    };
    Some(Row::Call(asked))
}

fn of_one_or_two(row: Reader) -> Option<Row> {
    match row.letter {
        b'b' => Some(Row::Lend(row.c, row.d)),
        b'c' => Some(Row::Count(Store::from(row.c), row.d)),
        b't' => Some(Row::Call(Asked::Take(row.d))),
        b'q' => Some(Row::Call(Asked::Ask(Question::Report(Store::from(row.d))))),
        b'a' => Some(Row::Call(Asked::Ask(Question::Audit(Store::from(row.d))))),
        _ => None,
    }
}

// What a row asks for; nothing, where its letter is none of these.
fn asked(row: Reader, number: u32) -> Option<Row> {
    match row.fields {
        0 => Some(Row::Anew),
        1 | 2 => of_one_or_two(row),
        3 => of_three(row),
        _ => of_four(row, number),
    }
}

fn lend(before: Sides, on: u32, ex: u32) -> Sides {
    Both {
        on_chip: Side {
            lent: on as usize,
            ..before.on_chip
        },
        external: Side {
            lent: ex as usize,
            ..before.external
        },
    }
}

fn with_count(before: Sides, store: Store, count: u32) -> Sides {
    let mut spoiled = before.at(store);
    spoiled.head.totals.max_allocs = count;
    before.with(store, spoiled)
}

// The call is made and its line gathered with the others; both stores after it.
fn call(out: &mut Lines, before: Sides, asked: Asked) -> Sides {
    let made = making::make(asked, before);
    let line = Line {
        before: &before,
        made: &made,
    };
    let _ = writeln!(out, "{line}");
    made.after
}

fn step(out: &mut Lines, before: Sides, row: Row) -> Sides {
    match row {
        Row::Call(asked) => call(out, before, asked),
        Row::Anew => no_stores(),
        Row::Lend(on, ex) => lend(before, on, ex),
        Row::Count(store, count) => with_count(before, store, count),
    }
}

// Every row to the end of the list.
pub fn print(out: &mut Lines) {
    let mut sides = no_stores();
    for number in 1..=MOST {
        let row = rows::next();
        if !row.is_whole() {
            break;
        }
        if let Some(asked) = asked(row, number) {
            sides = step(out, sides, asked);
        }
    }
    out.flush();
}
