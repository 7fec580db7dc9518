// The pile of spare records in `free_nodes`: the words up to `free_offset`, the last on top.
ghost use Rattle.std.specs.Prelude.{◌≡◌, ℕ, ◌+◌, ◌<◌, ◌≤◌, List, length, get_or};
ghost use Rattle.tables.specs.Steps.{push_pile, pop_pile};
ghost use Rattle.records.specs.InWords.{words_of};

use crate::totals::Totals;
use answers::Handle;

pub fn spare(free_nodes: &[u32], i: u32) -> Handle
    requires { i < length free_nodes.now }
    ensures { result.0 ≡ get_or free_nodes.now i 0 }
{
    Handle(free_nodes[i as usize])
}

// A record goes onto the pile.
pub fn push(free_nodes: &mut [u32], t: Totals, node: Handle) -> Totals
    requires free_offset_in_bounds { t.free_offset + 1 < length free_nodes.old }
    requires free_offset_bound { t.free_offset < 4294967295 }
    ensures { (hs ls ns : List ℕ) → words_of result hs ls ns free_nodes.new
        ≡ push_pile (words_of t hs ls ns free_nodes.old) node.0 }
{
    let free_offset = t.free_offset + 1;
    free_nodes[free_offset as usize] = node.0;
    t.with_free_offset(free_offset)
}

// The record on top leaves the pile.
pub fn pop(t: Totals) -> Totals
    requires { 1 ≤ t.free_offset }
    ensures { (hs ls ns ps : List ℕ) → words_of result hs ls ns ps ≡ pop_pile (words_of t hs ls ns ps) }
{
    t.with_free_offset(t.free_offset - 1)
}
