// The writes of a take, which cannot fail.
//
// Private to the allocator, though Rattle has no word for that: what is required here the gate and the plan have tested.
#![tactic(auto)]

ghost use Rattle.std.specs.Prelude.{◌≡◌, ℕ, ◌-◌, List, []};
ghost use Rattle.tables.specs.Words.{with_total};
ghost use Rattle.tables.specs.Take.{granting, splitting};
ghost use Rattle.tables.specs.Guards.{GrantGuards, SplitGuards};
ghost use Rattle.records.specs.InWords.{words_of, bound, HasRoom};

use answers::Handle;
use records::nodes;
use records::nodes::Field;
use records::totals::Totals;
use small_float::Size;
use take_plan::{Region, Remainder};

// The top of its class leaves its list and becomes live with this size.
//
// What `GrantGuards` says is of the totals and the size as well as of the region, so it is no invariant of a region.
fn make_live(
    t: Totals,
    size: Size,
    region: Region,
    bin_indices: &mut [u32; 256],
    used_bins: &mut [u8; 32],
    nodes: &mut [u32],
) -> Totals
    requires has_room { HasRoom t.max_allocs nodes.old }
    requires grant_guards { GrantGuards (words_of t [] [] [] []) size.0 region.class.0 region.record.0 region.offset }
    ensures { (ps : List ℕ) →
        words_of result bin_indices.new used_bins.new nodes.new ps
        ≡ granting (bound t.max_allocs)
        (words_of t bin_indices.old used_bins.old nodes.old ps) size.0 region.class.0 region.record.0 }
{
    let r = region.record;
    let none = Handle(nodes::NONE);
    let next = Handle(nodes::word(nodes, r, Field::BinListNext));
    let c = region.class;
    let u = bins::remove::remove_from_class(bin_indices, used_bins, nodes, t, c, none, next);
    nodes::put(nodes, r, Field::DataSize, size.0);
    nodes::put(nodes, r, Field::Used, 1);
    u
}

// A region of just the right length.
pub fn grant_whole(
    t: Totals,
    size: Size,
    region: Region,
    bin_indices: &mut [u32; 256],
    used_bins: &mut [u8; 32],
    nodes: &mut [u32],
) -> Totals
    requires has_room { HasRoom t.max_allocs nodes.old }
    requires grant_guards { GrantGuards (words_of t [] [] [] []) size.0 region.class.0 region.record.0 region.offset }
    ensures { (ps : List ℕ) →
        words_of result bin_indices.new used_bins.new nodes.new ps
        ≡ with_total (granting (bound t.max_allocs)
        (words_of t bin_indices.old used_bins.old nodes.old ps) size.0 region.class.0 region.record.0)
        (t.free_storage - size.0) }
{
    let left = t.free_storage - size.0;
    let u = make_live(t, size, region, bin_indices, used_bins, nodes);
    u.with_free_storage(left)
}

// A longer region: the remainder takes its record off the pile and stands just after the region.
pub fn grant_part(
    t: Totals,
    size: Size,
    region: Region,
    rest: Remainder,
    bin_indices: &mut [u32; 256],
    used_bins: &mut [u8; 32],
    nodes: &mut [u32],
) -> Totals
    requires has_room { HasRoom t.max_allocs nodes.old }
    requires grant_guards { GrantGuards (words_of t [] [] [] []) size.0 region.class.0 region.record.0 region.offset }
    requires split_guards { SplitGuards (words_of t [] [] [] []) rest.record.0 }
    ensures { (ps : List ℕ) →
        words_of result bin_indices.new used_bins.new nodes.new ps
        ≡ with_total (splitting (bound t.max_allocs)
        (words_of t bin_indices.old used_bins.old nodes.old ps)
        size.0 region.class.0 region.record.0 region.offset rest.size.0 rest.record.0) (t.free_storage - size.0) }
{
    let left = t.free_storage - size.0;
    let end = region.offset + size.0;
    let r = region.record;
    let next = Handle(nodes::word(nodes, r, Field::NeighborNext));
    let u = make_live(t, size, region, bin_indices, used_bins, nodes);
    let v = records::pile::pop(u);
    let w = bins::insert::insert_node_into_bin(
        bin_indices,
        used_bins,
        nodes,
        v,
        rest.size,
        end,
        rest.record,
        r,
        next,
    );
    w.with_free_storage(left)
}
