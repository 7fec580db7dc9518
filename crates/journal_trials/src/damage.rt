// Damaged journals, one after the other, drawn from one seed.
use crate::counts::Counts;
use crate::drawn::Seed;
use crate::{drawn, replaying_one};
use journal_lines::Lines;

// A journal drawn, damaged and replayed.
fn try_one(
    seed: &mut Seed,
    journal: &mut [u8],
    counts: &mut Counts,
    out: &mut Lines,
    nodes: &mut [u32; 8192],
    free_nodes: &mut [u32; 1024],
) {
    let whole = drawn::draw(seed, journal);
    let damaged = drawn::damage(seed, journal, whole);
    let bytes = journal_lines::front(journal, damaged);
    replaying_one::replay(false, bytes, counts, out, nodes, free_nodes);
}

// So many journals, with a line after every so many.
pub fn try_drawn(rt: &impl Print, journals: u32, every: u32, out: &mut Lines) {
    let mut journal = [0u8; 256];
    let mut counts = Counts::new();
    let mut nodes = [0u32; 8192];
    let mut free_nodes = [0u32; 1024];
    let mut seed = Seed(1);
    for i in 0..journals {
        try_one(
            &mut seed,
            &mut journal,
            &mut counts,
            out,
            &mut nodes,
            &mut free_nodes,
        );
        if every != 0 && (i + 1) % every == 0 {
            let _ = println!(rt; "{} {}", i + 1, counts.sum);
        }
    }
    let _ = println!(rt; "{counts}");
}
