// The class lists: each from its head to its end, member by member.
ghost use Rattle.std.specs.Prelude.{◌≡◌, ◌+◌, ◌-◌, ◌<◌, ◌≤◌, length};
ghost use Rattle.tables.specs.Calls.{edition32};
ghost use Rattle.records.specs.InWords.{InTable};
ghost use Rattle.audit_words.specs.Lists.{good_member, next_member, list_from, lists_from};

use answers::Handle;
use audit_chain::marked::Marked;
use audit_words::Along;
use records::nodes;
use records::nodes::Field;
use small_float::{Class, Size};

// A free region of class c, joined to the one before it.
fn good_member(t: Marked, c: Class, m: Along) -> bool
    ensures { result ≡ good_member t.entry.nodes.now t.entry.scratch.now t.entry.max_allocs c.0 m }
{
    let r = Handle(m.here);
    let prev = m.prev;
    if t.max_allocs <= r.0 {
        return false;
    }
    if audit_chain::scratch::marked(t.scratch, r) != 0 {
        return false;
    }
    if nodes::word(t.nodes, r, Field::BinListPrev) != prev {
        return false;
    }
    if nodes::word(t.nodes, r, Field::Used) != 0 {
        return false;
    }
    let size = Size(nodes::word(t.nodes, r, Field::DataSize));
    let class = small_float::uint_to_float_round_down(size);
    class.0 == c.0
}

fn next_member(nodes: &[u32], m: Along) -> Along
    requires in_table { InTable m.here nodes.now }
    requires listed_bound { m.listed < 4294967295 }
    ensures { result ≡ next_member nodes.now m }
{
    let r = Handle(m.here);
    Along {
        prev: m.here,
        here: nodes::word(nodes, r, Field::BinListNext),
        listed: m.listed + 1,
    }
}

// Along the list of class c as far as its members are good, while the members of all lists are fewer than the free regions.
fn list_from(t: Marked, frees: u32, c: Class, start: Along) -> Along
    requires { start.listed ≤ frees }
    ensures value { result ≡ list_from (frees - start.listed) t.entry.nodes.now t.entry.scratch.now t.entry.max_allocs c.0 start }
    ensures still_low { result.listed ≤ frees }
{
    let mut m = start;
    // along links: how many members were met stands in `m`, which the model's `next_member` counts
    while m.listed < frees {
        if !good_member(t, c, m) {
            return m;
        }
        m = next_member(t.nodes, m);
    }
    m
}

// All the lists, which together have as many members as there are free regions.
pub fn lists_are_sound(t: Marked, bin_indices: &[u32; 256], frees: u32) -> bool
    ensures { result
        ≡ lists_from edition32 256 t.entry.nodes.now t.entry.scratch.now bin_indices.now t.entry.max_allocs frees 0 0 }
{
    let mut listed: u32 = 0;
    for c in 0..256u32 {
        let start = Along {
            prev: nodes::NONE,
            here: bin_indices[c as usize],
            listed,
        };
        let end = list_from(t, frees, Class(c), start);
        if end.here != nodes::NONE {
            return false;
        }
        listed = end.listed;
    }
    listed == frees
}
