// The neighbour chain: from its first record to its end, region by region.
ghost use Rattle.std.specs.Prelude.{◌≡◌, ◌+◌, ◌<◌, ◌≤◌, ◌^◌, length};
ghost use Rattle.tables.specs.Layout.{data_size, neighbor_next, word as word_of};
ghost use Rattle.tables.specs.Calls.{edition32};
ghost use Rattle.records.specs.InWords.{InTable};
ghost use Rattle.audit_words.specs.Chain.{starts_chain, first_record, good_used, good_region, advanced, walk_from, started, walk_ends};
ghost use Rattle.audit_words.specs.Bounded.{Bounded};
ghost use Rattle.audit_chain.specs.Comes.{Comes};

use crate::marked::Marked;
use answers::Handle;
use audit_words::Walk;
use records::nodes;
use records::nodes::Field;
use records::totals::Totals;

// A record that is not spare and has nothing before it.
fn starts_chain(m: Marked, r: Handle) -> bool
    requires { r.0 < m.max_allocs }
    ensures { result ≡ starts_chain edition32 m.entry.nodes.now m.entry.scratch.now r.0 }
{
    if crate::scratch::marked(m.scratch, r) != 0 {
        return false;
    }
    nodes::word(m.nodes, r, Field::NeighborPrev) == nodes::NONE
}

// The marker of no record where none is: a link as the tables have it, which the walk compares, and what `first_record` of the model gives.
pub fn first_record(m: Marked) -> Handle
    ensures { result.0 ≡ first_record edition32 m.entry.max_allocs m.entry.nodes.now m.entry.scratch.now 0 }
{
    for i in 0..m.max_allocs {
        if starts_chain(m, Handle(i)) {
            return Handle(i);
        }
    }
    Handle(nodes::NONE)
}

// 0 or 1, and not 0 twice in a row.
fn good_used(before: u32, this: u32) -> bool
    ensures { result ≡ good_used before this }
{
    if this == 0 {
        return before != 0;
    }
    this == 1
}

// The region that the walk has come to, in the store and joined to the one before it.
fn good_region(m: Marked, size: u32, w: Walk) -> bool
    requires { w.offset ≤ size }
    ensures { result ≡ good_region m.entry.nodes.now m.entry.scratch.now m.entry.max_allocs size w }
{
    let r = Handle(w.here);
    if m.max_allocs <= r.0 {
        return false;
    }
    if crate::scratch::marked(m.scratch, r) != 0 {
        return false;
    }
    if nodes::word(m.nodes, r, Field::NeighborPrev) != w.prev {
        return false;
    }
    if nodes::word(m.nodes, r, Field::DataOffset) != w.offset {
        return false;
    }
    if size - w.offset < nodes::word(m.nodes, r, Field::DataSize) {
        return false;
    }
    good_used(w.used, nodes::word(m.nodes, r, Field::Used))
}

// The link of the region at which the walk stands.
fn next_of(nodes: &[u32], w: Walk) -> u32
    requires { InTable w.here nodes.now }
    ensures { result ≡ word_of nodes.now neighbor_next w.here }
{
    nodes::word(nodes, Handle(w.here), Field::NeighborNext)
}

// Past this region to the next, whose number the caller has.
fn advance(nodes: &[u32], w: Walk, next: u32) -> Walk
    requires in_table { InTable w.here nodes.now }
    requires records_bound { w.records + 1 < 2 ^ 32 }
    requires frees_le_records { w.frees ≤ w.records }
    requires total_le_offset { w.total ≤ w.offset }
    requires here_bound { w.offset + word_of nodes.now data_size w.here < 2 ^ 32 }
    requires next_value { next ≡ word_of nodes.now neighbor_next w.here }
    ensures { result ≡ advanced nodes.now w }
{
    let r = Handle(w.here);
    let size = nodes::word(nodes, r, Field::DataSize);
    let used = nodes::word(nodes, r, Field::Used);
    if used == 0 {
        return Walk {
            prev: w.here,
            here: next,
            offset: w.offset + size,
            used,
            records: w.records + 1,
            frees: w.frees + 1,
            total: w.total + size,
        };
    }
    Walk {
        prev: w.here,
        here: next,
        offset: w.offset + size,
        used,
        records: w.records + 1,
        frees: w.frees,
        total: w.total,
    }
}

// As far as the regions are good and their records follow each other by number. The next record's number is a sum here, and the link is only compared
// with it: the processor need not wait for the word before it reads the next record.
fn run_on(m: Marked, size: u32, start: Walk) -> Walk
    requires { Bounded m.max_allocs size start }
    ensures { Comes m.entry.nodes.now m.entry.scratch.now m.entry.max_allocs size start result }
{
    let mut w = start;
    // along links: how many records were met stands in the walk, which the model's `advanced` counts
    while w.records < m.max_allocs {
        if !good_region(m, size, w) {
            return w;
        }
        let follows = w.here + 1;
        let next = next_of(m.nodes, w);
        if next != follows {
            return w;
        }
        w = advance(m.nodes, w, follows);
    }
    w
}

// After so many regions in a row whose records follow each other by number, more of them are expected. With fewer, a store that was long in use, where
// runs are short, would lose by each of them.
const MANY: u32 = 8;

// A run, if it is likely to be long; otherwise not a step.
fn run_if_likely(m: Marked, size: u32, w: Walk, in_a_row: u32) -> Walk
    requires { Bounded m.max_allocs size w }
    ensures { Comes m.entry.nodes.now m.entry.scratch.now m.entry.max_allocs size w result }
{
    if in_a_row < MANY {
        return w;
    }
    run_on(m, size, w)
}

// How many in a row, with one region more.
fn counted(in_a_row: u32, follows: u32, next: u32) -> u32
    requires { in_a_row < 4294967295 }
    ensures { result ≤ in_a_row + 1 }
{
    if next == follows {
        return in_a_row + 1;
    }
    0
}

// From the first record as far as the regions are good.
pub fn walk_from(m: Marked, size: u32, first: Handle) -> Walk
    ensures value { result
        ≡ walk_from m.entry.max_allocs m.entry.nodes.now m.entry.scratch.now m.entry.max_allocs size (started edition32 first.0) }
    ensures records_bound { result.records ≤ m.entry.max_allocs }
{
    let start = first.0;
    let mut w = Walk {
        prev: nodes::NONE,
        here: start,
        offset: 0,
        used: 1,
        records: 0,
        frees: 0,
        total: 0,
    };
    let mut in_a_row: u32 = 0;
    while w.records < m.max_allocs {
        if !good_region(m, size, w) {
            return w;
        }
        let follows = w.here + 1;
        let next = next_of(m.nodes, w);
        in_a_row = counted(in_a_row, follows, next);
        let v = advance(m.nodes, w, next);
        w = run_if_likely(m, size, v, in_a_row);
    }
    w
}

// The walk came to the end of the chain there, at the end of the store, with every record that is not spare, and the kept total is right.
pub fn walk_ends(t: Totals, w: Walk) -> bool
    requires records_bound { w.records ≤ t.max_allocs }
    requires free_offset_bound { t.free_offset + 1 < t.max_allocs }
    requires max_allocs_bound { t.max_allocs ≤ edition32.limit }
    ensures { result ≡ walk_ends edition32 t.size t.max_allocs t.free_storage (t.free_offset + 1) w }
{
    let spares = t.free_offset + 1;
    if w.here != nodes::NONE {
        return false;
    }
    if w.offset != t.size {
        return false;
    }
    if w.records + spares != t.max_allocs {
        return false;
    }
    w.total == t.free_storage
}
