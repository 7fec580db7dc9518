// The second place where a span is taken and goes back.
use answers::{Allocation, Handle};
use small_float::Size;

// One take and one return, in a store of its own; the number of the return's refusal, 0 where it is none.
pub fn drive(size: u32, records: u32, length: u32, handle: u32) -> u32 {
    let mut bin_indices = [0u32; 256];
    let mut used_bins = [0u8; 32];
    let mut nodes = [0u32; 64];
    let mut free_nodes = [0u32; 8];
    let started = starting::with_max_allocs(
        Size(size),
        records,
        &mut bin_indices,
        &mut used_bins,
        &mut nodes,
        &mut free_nodes,
    );
    let totals = started.totals;
    let mut scalars = totals.in_array();
    let _taken = lending::allocate(
        &mut scalars,
        Size(length),
        &mut bin_indices,
        &mut used_bins,
        &mut nodes,
        &free_nodes,
    );
    // the one span of a fresh store starts at 0
    let span = Allocation {
        offset: 0,
        metadata: Handle(handle),
    };
    let answer = lending::free(
        &mut scalars,
        span,
        &mut bin_indices,
        &mut used_bins,
        &mut nodes,
        &mut free_nodes,
    );
    answers::number(answer)
}
