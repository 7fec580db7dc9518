// Turns of the packet layer beside the bare work in them, to be timed. Rows of the input, of which four are read at most:
//
//   t LENGTH TURNS      a take and a hand-back, of one allocator alone
//   k LENGTH TURNS      a packet taken, every byte of it marked, or handed back, by turns
//   c LENGTH TURNS      so many bytes copied to one place of a store
//   f LENGTH TURNS      a packet filled with so many bytes, but for the first turn, which takes it
//
// What is printed is the kind, and what the last turn left in the first byte of the store. A length is at most 1,024. docs/SPEED.md has the figures.
#![tactic(auto)]

mod bare;
mod packed;

use driving::going_on;
use oracle_lists::rows::Reader;

// The kind, and the byte.
fn answer(rt: &impl Print, row: Reader) {
    let _ = match (row.letter, row.fields) {
        (b't', 2) => println!(rt; "t {}", bare::spans(row.c, row.d)),
        (b'k', 2) => println!(rt; "k {}", packed::packets(false, row.c, row.d)),
        (b'c', 2) => println!(rt; "c {}", bare::copies(row.c, row.d)),
        (b'f', 2) => println!(rt; "f {}", packed::packets(true, row.c, row.d)),
        _ => println!(rt; "a row is t, k, c or f, LENGTH TURNS"),
    };
}

fn main(rt: HostRuntime) {
    going_on::for_each_row(4, |row| answer(&rt, row));
}
