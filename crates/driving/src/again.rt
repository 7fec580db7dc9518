// Setups and audits again and again, so that one of them can be timed.
use answers::Refusal;
use records::totals::Totals;
use small_float::Size;

// So many setups, one after the other; the scalars that the last one leaves.
pub fn set_up(
    times: u32,
    size: u32,
    records: u32,
    bin_indices: &mut [u32; 256],
    used_bins: &mut [u8; 32],
    nodes: &mut [u32],
    free_nodes: &mut [u32],
) -> Totals {
    let mut t = Totals::zeros();
    for _ in 0..times {
        let started = starting::with_max_allocs(
            Size(size),
            records,
            bin_indices,
            used_bins,
            nodes,
            free_nodes,
        );
        t = started.totals;
    }
    t
}

fn is_sound(answer: Result<(), Refusal>) -> bool {
    match answer {
        Ok(()) => true,
        Err(_) => false,
    }
}

// So many audits; whether the last one said yes.
pub fn audit(
    times: u32,
    t: Totals,
    bin_indices: &[u32; 256],
    used_bins: &[u8; 32],
    nodes: &[u32],
    free_nodes: &[u32],
    scratch: &mut [u32],
) -> bool {
    let mut sound = false;
    for _ in 0..times {
        sound = is_sound(auditing::audit(t, bin_indices, used_bins, nodes, free_nodes, scratch));
    }
    sound
}
