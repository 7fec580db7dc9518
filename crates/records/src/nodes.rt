// Words of a record in `nodes`, eight to a record.
ghost use Rattle.std.specs.Prelude.{◌≡◌};
ghost use Rattle.tables.specs.Layout.{word as word_of, put as put_of, put_link};
ghost use Rattle.records.specs.InWords.{HasRoom, InTable, place};

use answers::Handle;

// The words of a record by the names of the Rust's fields, in their order; the last is kept for later.
#[derive(Clone, Copy)]
pub enum Field {
    DataOffset,
    DataSize,
    BinListPrev,
    BinListNext,
    NeighborPrev,
    NeighborNext,
    Used,
    Kept,
}

impl Field {
    // Where it stands in its record.
    pub fn place(self) -> usize
        ensures { result ≡ place self }
    {
        self as usize
    }
}

// An absent link.
pub const NONE: u32 = 4294967295;

// These three are for calls whose gate is open, which know that the record stands in the table: so they ask for that, and test nothing again. What they ask
// is no struct's invariant: one that holds the lent table by `&mut` would have a clause more for it in each of the forty functions that write (its ghost
// name, old and new), and each test would be made as often. Where a table is only read, it is (`audit_chain::marked`).
pub fn word(nodes: &[u32], node: Handle, k: Field) -> u32
    requires { InTable node.0 nodes.now }
    ensures { result ≡ word_of nodes.now (place k) node.0 }
{
    nodes[8 * (node.0 as usize) + k.place()]
}

pub fn put(nodes: &mut [u32], node: Handle, k: Field, v: u32)
    requires { InTable node.0 nodes.old }
    ensures { nodes.new ≡ put_of node.0 (place k) v nodes.old }
{
    nodes[8 * (node.0 as usize) + k.place()] = v;
}

// A link written into the record that another link names, if it names one.
pub fn put_link(nodes: &mut [u32], max_allocs: u32, link: Handle, k: Field, to: Handle)
    requires { HasRoom max_allocs nodes.old }
    ensures { nodes.new ≡ put_link max_allocs link.0 (place k) to.0 nodes.old }
{
    if link.0 < max_allocs {
        put(nodes, link, k, to.0);
    }
}

// The same of any record, below the count or not: 0 past the end of the table. For whoever shows a store and knows nothing of it.
#[tactic(auto, unfolding(tables::specs::Layout::word))]
pub fn shown(nodes: &[u32], number: u32, k: Field) -> u32
    ensures { result ≡ word_of nodes.now (place k) number }
{
    nodes
        .get(8 * (number as usize) + k.place())
        .copied()
        .unwrap_or(0)
}
