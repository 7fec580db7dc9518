// remove_node_from_bin of the Rust, but for the pile and the free total: a record leaves the list of its class.
ghost use Rattle.std.specs.Prelude.{◌≡◌, ℕ, ◌<◌, List};
ghost use Rattle.tables.specs.Steps.{unlink_at, unlink};
ghost use Rattle.records.specs.InWords.{words_of, bound, HasRoom, InTable};

use answers::Handle;
use records::nodes;
use records::nodes::Field;
use records::totals::Totals;
use small_float::{Class, Size};

// A record of class c leaves its list, where it stands between prev and next. Each link is tested once: what depends on it is done where it is known.
pub fn remove_from_class(
    bin_indices: &mut [u32; 256],
    used_bins: &mut [u8; 32],
    nodes: &mut [u32],
    t: Totals,
    c: Class,
    prev: Handle,
    next: Handle,
) -> Totals
    requires c_bound { c.0 < 256 }
    requires has_room { HasRoom t.max_allocs nodes.old }
    ensures { (ps : List ℕ) →
        words_of result bin_indices.new used_bins.new nodes.new ps
        ≡ unlink_at (bound t.max_allocs)
        (words_of t bin_indices.old used_bins.old nodes.old ps) c.0 prev.0 next.0 }
{
    let max_allocs = t.max_allocs;
    if prev.0 < max_allocs {
        nodes::put(nodes, prev, Field::BinListNext, next.0);
        nodes::put_link(nodes, max_allocs, next, Field::BinListPrev, prev);
        return t;
    }
    // the first of its list
    let i = c.0 as usize;
    bin_indices[i] = next.0;
    if next.0 < max_allocs {
        nodes::put(nodes, next, Field::BinListPrev, prev.0);
        return t;
    }
    // and the only one
    let top = bitmap::bits::unmark(used_bins, t.used_bins_top, c);
    t.with_used_bins_top(top)
}

// A record leaves the list of its class.
pub fn remove_node_from_bin(
    bin_indices: &mut [u32; 256],
    used_bins: &mut [u8; 32],
    nodes: &mut [u32],
    t: Totals,
    node: Handle,
) -> Totals
    requires in_table { InTable node.0 nodes.old }
    requires has_room { HasRoom t.max_allocs nodes.old }
    ensures { (ps : List ℕ) →
        words_of result bin_indices.new used_bins.new nodes.new ps
        ≡ unlink (bound t.max_allocs) (words_of t bin_indices.old used_bins.old nodes.old ps) node.0 }
{
    let size = Size(nodes::word(nodes, node, Field::DataSize));
    let class = crate::class::class_of(size);
    let prev = Handle(nodes::word(nodes, node, Field::BinListPrev));
    let next = Handle(nodes::word(nodes, node, Field::BinListNext));
    remove_from_class(bin_indices, used_bins, nodes, t, class, prev, next)
}
