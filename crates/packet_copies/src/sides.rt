// Two small stores by value.
use offset_allocator::head::Head;
use packets::Both;
use records::totals::Totals;

// How many bytes a store has.
pub const BYTES: usize = 64;

// One store: its head with its tables, for 16 records, its bytes, and how many of them are lent to a call: its first, as many as there are. The nodes
// have words for two records more, so that a count of 17 or 18 finds the pile alone too short.
#[derive(Clone, Copy)]
pub struct Side {
    pub head: Head,
    pub nodes: [u32; 144],
    pub free_nodes: [u32; 16],
    pub bytes: [u8; BYTES],
    pub lent: usize,
}

pub type Sides = Both<Side>;

// No store: its head and tables are zeros, its bytes are 7, and so many of them are lent.
pub fn no_store(lent: usize) -> Side {
    Side {
        head: Head {
            totals: Totals::zeros(),
            bin_indices: [0; 256],
            used_bins: [0; 32],
        },
        nodes: [0; 144],
        free_nodes: [0; 16],
        bytes: [7; BYTES],
        lent,
    }
}

// The bytes of a store that are lent to a call, to be written. A function, for the borrow checker takes no part of an array that is
// a field as `&mut [u8]`.
pub fn lent_mut(bytes: &mut [u8], many: usize) -> &mut [u8] {
    let end = many.min(bytes.len());
    &mut bytes[..end]
}
