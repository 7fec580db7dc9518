// insert_node_into_bin of the Rust, but for the pile and the free total: a record becomes a free region and goes on top of its class.
ghost use Rattle.std.specs.Prelude.{cond, ◌≡◌, ℕ, ◌/◌, ◌%◌, ◌<◌, List, ltb, get_or, set};
ghost use Rattle.tables.specs.Layout.{data_offset, data_size, bin_prev, bin_next, neighbor_prev, neighbor_next, used, put, put_link};
ghost use Rattle.tables.specs.Steps.{set_bit, join_nodes, insert_at, insert};
ghost use Rattle.tables.specs.Calls.{edition32};
ghost use Rattle.records.specs.InWords.{words_of, bound, HasRoom, InTable};

use answers::Handle;
use records::nodes;
use records::nodes::{Field, NONE};
use records::totals::Totals;
use small_float::{Class, Size};

// Where the region of record m lies.
fn write_span(nodes: &mut [u32], m: Handle, size: Size, offset: u32)
    requires { InTable m.0 nodes.old }
    ensures { nodes.new ≡ put m.0 data_size size.0 (put m.0 data_offset offset nodes.old) }
{
    nodes::put(nodes, m, Field::DataOffset, offset);
    nodes::put(nodes, m, Field::DataSize, size.0);
}

// The links of record m: in the list of its class, and to its neighbours.
fn write_links(
    nodes: &mut [u32],
    m: Handle,
    list_prev: Handle,
    list_next: Handle,
    prev: Handle,
    next: Handle,
)
    requires { InTable m.0 nodes.old }
    ensures { nodes.new
        ≡ put m.0 neighbor_next next.0 (put m.0 neighbor_prev prev.0
        (put m.0 bin_next list_next.0 (put m.0 bin_prev list_prev.0 nodes.old))) }
{
    nodes::put(nodes, m, Field::BinListPrev, list_prev.0);
    nodes::put(nodes, m, Field::BinListNext, list_next.0);
    nodes::put(nodes, m, Field::NeighborPrev, prev.0);
    nodes::put(nodes, m, Field::NeighborNext, next.0);
}

// The seven words of record m, which goes above the old top of its list.
fn write_record(
    nodes: &mut [u32],
    m: Handle,
    size: Size,
    offset: u32,
    old_top: Handle,
    prev: Handle,
    next: Handle,
)
    requires { InTable m.0 nodes.old }
    ensures { nodes.new
        ≡ put m.0 used 0 (put m.0 neighbor_next next.0 (put m.0 neighbor_prev prev.0
        (put m.0 bin_next old_top.0 (put m.0 bin_prev edition32.none
        (put m.0 data_size size.0 (put m.0 data_offset offset nodes.old)))))) }
{
    write_span(nodes, m, size, offset);
    write_links(nodes, m, Handle(NONE), old_top, prev, next);
    nodes::put(nodes, m, Field::Used, 0);
}

// On top of its class: the old top, if it is a record, links back to m; if it is none, the class was empty and gets its bits. One test tells both.
fn put_on_top(
    used_bins: &mut [u8; 32],
    nodes: &mut [u32],
    used_bins_top: u32,
    max_allocs: u32,
    c: Class,
    old_top: Handle,
    m: Handle,
) -> u32
    requires c_bound { c.0 < 256 }
    requires has_room { HasRoom max_allocs nodes.old }
    ensures { (result ≡ cond (ltb old_top.0 max_allocs) used_bins_top (set_bit used_bins_top (c.0 / 8)))
        × (used_bins.new ≡ cond (ltb old_top.0 max_allocs) used_bins.old
        (set used_bins.old (c.0 / 8) (set_bit (get_or used_bins.old (c.0 / 8) 0) (c.0 % 8))))
        × (nodes.new ≡ put_link max_allocs old_top.0 bin_prev m.0 nodes.old) }
{
    if old_top.0 < max_allocs {
        nodes::put(nodes, old_top, Field::BinListPrev, m.0);
        return used_bins_top;
    }
    bitmap::bits::mark(used_bins, used_bins_top, c)
}

// The neighbours' links to record m.
fn join_neighbors(nodes: &mut [u32], max_allocs: u32, m: Handle, prev: Handle, next: Handle)
    requires { HasRoom max_allocs nodes.old }
    ensures { nodes.new ≡ join_nodes (bound max_allocs) m.0 prev.0 next.0 nodes.old }
{
    nodes::put_link(nodes, max_allocs, prev, Field::NeighborNext, m);
    nodes::put_link(nodes, max_allocs, next, Field::NeighborPrev, m);
}

fn insert_into_class(
    bin_indices: &mut [u32; 256],
    used_bins: &mut [u8; 32],
    nodes: &mut [u32],
    t: Totals,
    size: Size,
    offset: u32,
    c: Class,
    m: Handle,
    prev: Handle,
    next: Handle,
) -> Totals
    requires c_bound { c.0 < 256 }
    requires in_table { InTable m.0 nodes.old }
    requires has_room { HasRoom t.max_allocs nodes.old }
    ensures { (ps : List ℕ) →
        words_of result bin_indices.new used_bins.new nodes.new ps
        ≡ insert_at (bound t.max_allocs)
        (words_of t bin_indices.old used_bins.old nodes.old ps)
        size.0 offset c.0 (get_or bin_indices.old c.0 0) m.0 prev.0 next.0 }
{
    let i = c.0 as usize;
    let top_link = bin_indices[i];
    let old_top = Handle(top_link);
    let max_allocs = t.max_allocs;
    // in this order, for in spoiled tables the old top or a neighbour can be m itself
    write_record(nodes, m, size, offset, old_top, prev, next);
    let top = put_on_top(used_bins, nodes, t.used_bins_top, max_allocs, c, old_top, m);
    join_neighbors(nodes, max_allocs, m, prev, next);
    bin_indices[i] = m.0;
    t.with_used_bins_top(top)
}

// Record m becomes a free region of this size at this offset between two neighbours, and goes on top of its class.
pub fn insert_node_into_bin(
    bin_indices: &mut [u32; 256],
    used_bins: &mut [u8; 32],
    nodes: &mut [u32],
    t: Totals,
    size: Size,
    offset: u32,
    m: Handle,
    prev: Handle,
    next: Handle,
) -> Totals
    requires in_table { InTable m.0 nodes.old }
    requires has_room { HasRoom t.max_allocs nodes.old }
    ensures { (ps : List ℕ) →
        words_of result bin_indices.new used_bins.new nodes.new ps
        ≡ insert (bound t.max_allocs)
        (words_of t bin_indices.old used_bins.old nodes.old ps) size.0 offset m.0 prev.0 next.0 }
{
    let class = crate::class::class_of(size);
    insert_into_class(
        bin_indices,
        used_bins,
        nodes,
        t,
        size,
        offset,
        class,
        m,
        prev,
        next,
    )
}
