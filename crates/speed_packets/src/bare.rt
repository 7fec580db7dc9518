// The bare work: a span taken and handed back by one allocator, and bytes copied to one place of a store.
use records::totals::Totals;
use small_float::Size;

const RECORDS: u32 = 700;

// A span is taken and handed back.
fn turn(
    t: Totals,
    size: Size,
    bin_indices: &mut [u32; 256],
    used_bins: &mut [u8; 32],
    nodes: &mut [u32; 5600],
    free_nodes: &mut [u32; 700],
) -> Totals {
    let taken = taking::allocate(t, size, bin_indices, used_bins, nodes, free_nodes);
    let totals = taken.totals;
    match taken.answer {
        Ok(span) => giving::free(totals, span, bin_indices, used_bins, nodes, free_nodes).totals,
        Err(_) => totals,
    }
}

fn spans_of(length: u32, turns: u32, nodes: &mut [u32; 5600], free_nodes: &mut [u32; 700]) {
    let mut bin_indices = [0u32; 256];
    let mut used_bins = [0u8; 32];
    let started = starting::with_max_allocs(
        Size(65536),
        RECORDS,
        &mut bin_indices,
        &mut used_bins,
        nodes,
        free_nodes,
    );
    let mut t = started.totals;
    for _ in 0..turns {
        t = turn(
            t,
            Size(length),
            &mut bin_indices,
            &mut used_bins,
            nodes,
            free_nodes,
        );
    }
}

pub fn spans(length: u32, turns: u32) -> u8 {
    let mut nodes = [0u32; 5600];
    let mut free_nodes = [0u32; 700];
    spans_of(length, turns, &mut nodes, &mut free_nodes);
    0
}

// So many bytes, from a place that goes with the turn, so that no turn can be left out.
pub fn piece(from: &[u8], turn: u32, n: u32) -> &[u8] {
    let start = (turn % 1024) as usize;
    let end = start + n as usize;
    if end <= from.len() {
        &from[start..end]
    } else {
        &[]
    }
}

fn copy(turn: u32, n: u32, from: &[u8], store: &mut [u8]) {
    let new = piece(from, turn, n);
    if new.len() <= n as usize && n as usize <= store.len() {
        parts::fill(store, 0, n, new);
    }
}

fn copies_of(length: u32, turns: u32, from: &[u8; 4096], store: &mut [u8; 65536]) {
    for i in 1..=turns {
        copy(i, length, from, store);
    }
}

// The first byte of a store.
pub fn first(bytes: &[u8]) -> u8 {
    bytes.first().copied().unwrap_or(0)
}

fn copies_in(length: u32, turns: u32, store: &mut [u8; 65536]) -> u8 {
    let from = [1u8; 4096];
    copies_of(length, turns, &from, store);
    first(store)
}

pub fn copies(length: u32, turns: u32) -> u8 {
    let mut store = [0u8; 65536];
    copies_in(length, turns, &mut store)
}
