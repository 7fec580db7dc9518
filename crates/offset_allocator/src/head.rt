// The head record: all that an allocator keeps besides its two lent tables.
use answers::Refusal;
use records::totals::Totals;

#[derive(Clone, Copy)]
pub struct Head {
    pub totals: Totals,
    pub bin_indices: [u32; Head::NUM_LEAF_BINS],
    pub used_bins: [u8; Head::NUM_TOP_BINS],
}

impl Head {
    pub const NUM_TOP_BINS: usize = 32;

    pub const BINS_PER_LEAF: usize = 8;

    pub const NUM_LEAF_BINS: usize = Head::NUM_TOP_BINS * Head::BINS_PER_LEAF;
}

// What a call that can change the head gives back: its answer, and the head as it leaves it.
#[derive(Clone, Copy)]
pub struct Answered<T> {
    pub answer: Result<T, Refusal>,
    pub head: Head,
}
