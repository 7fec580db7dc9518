// The pile: each spare record is below the count, not marked live, and stands there once. Its mark in the scratch tells a second one.
ghost use Rattle.std.specs.Prelude.{◌≡◌, ◌≤◌, length};
ghost use Rattle.records.specs.InWords.{HasRoom};
ghost use Rattle.audit_words.specs.Spares.{good_spare, mark_from};

use answers::Handle;
use records::nodes;
use records::nodes::Field;

fn good_spare(nodes: &[u32], scratch: &[u32], max_allocs: u32, r: Handle) -> bool
    requires has_room { HasRoom max_allocs nodes.now }
    requires max_allocs_in_bounds { max_allocs ≤ length scratch.now }
    ensures { result ≡ good_spare nodes.now scratch.now max_allocs r.0 }
{
    if max_allocs <= r.0 {
        return false;
    }
    if crate::scratch::marked(scratch, r) != 0 {
        return false;
    }
    nodes::word(nodes, r, Field::Used) == 0
}

// The first `spares` words of the pile, each marked as it is met; false at the first bad one.
pub fn mark_spares(
    nodes: &[u32],
    free_nodes: &[u32],
    scratch: &mut [u32],
    max_allocs: u32,
    spares: u32,
) -> bool
    requires has_room { HasRoom max_allocs nodes.now }
    requires max_allocs_in_bounds { max_allocs ≤ length scratch.old }
    requires spares_in_bounds { spares ≤ length free_nodes.now }
    ensures value { result ≡ (mark_from spares nodes.now free_nodes.now max_allocs 0 scratch.old).fine }
    ensures scratch_after { scratch.new ≡ (mark_from spares nodes.now free_nodes.now max_allocs 0 scratch.old).marks }
{
    for i in 0..spares {
        let r = records::pile::spare(free_nodes, i);
        if !good_spare(nodes, scratch, max_allocs, r) {
            return false;
        }
        crate::scratch::mark(scratch, r);
    }
    true
}
