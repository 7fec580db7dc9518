// Journals tried: those on standard input, a row each, are replayed and their lines printed behind the row's number; then
// records are written where there is little room; then 100,000 journals are drawn, damaged and
// replayed, and what came of them is counted and summed up. What must be printed was made by the oracle's own reader (oracle/README.md).
#![tactic(auto)]

mod counts;
mod damage;
mod drawn;
mod replaying_one;
mod room;
mod rows;

use journal_lines::Lines;

// How many damaged journals are tried, and how many between two lines.
const DAMAGED: u32 = 100000;

const EVERY: u32 = 1000;

fn main(rt: HostRuntime) {
    let mut buffer = [0u8; 65536];
    let mut journal = [0u8; 131072];
    let mut out = Lines::new();
    rows::replay_all(&rt, &mut buffer, &mut journal, &mut out);
    room::try_all(&rt);
    damage::try_drawn(&rt, DAMAGED, EVERY, &mut out);
}
