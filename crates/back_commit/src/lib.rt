// The writes of a hand-back, which cannot fail.
//
// Private to the allocator, though Rattle has no word for that: what is required here the gate and the plan have tested.
#![tactic(auto)]

ghost use Rattle.std.specs.Prelude.{◌≡◌, ◌+◌, ◌≤◌, ◌<◌, [], length};
ghost use Rattle.basics.specs.Sum.{one};
ghost use Rattle.tables.specs.HandBack.{drop_if, merging};
ghost use Rattle.tables.specs.Guards.{MergeGuards};
ghost use Rattle.records.specs.InWords.{words_of, bound, HasRoom};
ghost use Rattle.back_plan.specs.Plan.{merged_in};

use back_plan::{Merged, Neighbor};
use records::totals::Totals;

// A free neighbour leaves its class, and its record goes onto the pile.
fn drop_if(
    t: Totals,
    beside: Neighbor,
    bin_indices: &mut [u32; 256],
    used_bins: &mut [u8; 32],
    nodes: &mut [u32],
    free_nodes: &mut [u32],
) -> Totals
    requires has_room { HasRoom t.max_allocs nodes.old }
    requires max_allocs_in_bounds { t.max_allocs ≤ length free_nodes.old }
    requires link_bound { 1 ≤ one beside.free → beside.link.0 < t.max_allocs }
    requires free_bound { t.free_offset + one beside.free < t.max_allocs }
    ensures { words_of result bin_indices.new used_bins.new nodes.new free_nodes.new
        ≡ drop_if (bound t.max_allocs) beside.free beside.link.0
        (words_of t bin_indices.old used_bins.old nodes.old free_nodes.old) }
{
    if beside.free {
        let node = beside.link;
        let u = bins::remove::remove_node_from_bin(bin_indices, used_bins, nodes, t, node);
        return records::pile::push(free_nodes, u, node);
    }
    t
}

// Both neighbours where they are free, the one before first.
fn drop_both(
    t: Totals,
    prev: Neighbor,
    next: Neighbor,
    bin_indices: &mut [u32; 256],
    used_bins: &mut [u8; 32],
    nodes: &mut [u32],
    free_nodes: &mut [u32],
) -> Totals
    requires has_room { HasRoom t.max_allocs nodes.old }
    requires max_allocs_in_bounds { t.max_allocs ≤ length free_nodes.old }
    requires link_bound { 1 ≤ one prev.free → prev.link.0 < t.max_allocs }
    requires link_bound_2 { 1 ≤ one next.free → next.link.0 < t.max_allocs }
    requires free_bound { t.free_offset + one prev.free + one next.free < t.max_allocs }
    ensures { words_of result bin_indices.new used_bins.new nodes.new free_nodes.new
        ≡ drop_if (bound t.max_allocs) next.free next.link.0
        (drop_if (bound t.max_allocs) prev.free prev.link.0
        (words_of t bin_indices.old used_bins.old nodes.old free_nodes.old)) }
{
    let u = drop_if(t, prev, bin_indices, used_bins, nodes, free_nodes);
    drop_if(u, next, bin_indices, used_bins, nodes, free_nodes)
}

// The merged region is put in under its record; the free total is set once.
pub fn merge(
    t: Totals,
    prev: Neighbor,
    next: Neighbor,
    m: Merged,
    bin_indices: &mut [u32; 256],
    used_bins: &mut [u8; 32],
    nodes: &mut [u32],
    free_nodes: &mut [u32],
) -> Totals
    requires has_room { HasRoom t.max_allocs nodes.old }
    requires max_allocs_in_bounds { t.max_allocs ≤ length free_nodes.old }
    requires merge_guards { MergeGuards (words_of t [] [] nodes.old []) m.record.0 prev.link.0 next.link.0 prev.free next.free (merged_in m) }
    ensures { words_of result bin_indices.new used_bins.new nodes.new free_nodes.new
        ≡ merging (bound t.max_allocs)
        (words_of t bin_indices.old used_bins.old nodes.old free_nodes.old)
        m.record.0 prev.link.0 next.link.0 prev.free next.free (merged_in m) }
{
    let u = drop_both(t, prev, next, bin_indices, used_bins, nodes, free_nodes);
    let length = m.length;
    let record = m.record;
    let before = m.before;
    let after = m.after;
    let v = bins::insert::insert_node_into_bin(
        bin_indices,
        used_bins,
        nodes,
        u,
        length,
        m.start,
        record,
        before,
        after,
    );
    v.with_free_storage(m.total)
}
