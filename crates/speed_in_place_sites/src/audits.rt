// The audit beside a setup of the same size: 131,072 records, half of them with a live span. Here is the program's second place where a span is
// taken, and where one goes back.
use answers::{Allocation, Handle};
use driving::again;
use records::totals::Totals;
use small_float::Size;

const STORE: u32 = 4294967295;

const RECORDS: u32 = 131072;

const SPANS: u32 = 65537;

const LAST: u32 = 65536;

const LENGTH: u32 = 1000;

const LAST_STARTS: u32 = LAST * LENGTH;

// So many spans are taken, and the last one goes back: a fresh store gives its records in order.
fn take_spans(
    start: Totals,
    bin_indices: &mut [u32; 256],
    used_bins: &mut [u8; 32],
    nodes: &mut [u32; 1048576],
    free_nodes: &mut [u32; 131072],
) -> Totals {
    let mut t = start;
    for _ in 0..SPANS {
        let taken = taking::allocate(t, Size(LENGTH), bin_indices, used_bins, nodes, free_nodes);
        t = taken.totals;
    }
    let last = Allocation {
        offset: LAST_STARTS,
        metadata: Handle(LAST),
    };
    let returned = giving::free(t, last, bin_indices, used_bins, nodes, free_nodes);
    returned.totals
}

fn set_up_and_audit(
    setups: u32,
    audits: u32,
    nodes: &mut [u32; 1048576],
    free_nodes: &mut [u32; 131072],
    scratch: &mut [u32; 131072],
) -> bool {
    let mut bin_indices = [0u32; 256];
    let mut used_bins = [0u8; 32];
    let t = again::set_up(
        setups,
        STORE,
        RECORDS,
        &mut bin_indices,
        &mut used_bins,
        nodes,
        free_nodes,
    );
    let u = take_spans(t, &mut bin_indices, &mut used_bins, nodes, free_nodes);
    again::audit(
        audits,
        u,
        &bin_indices,
        &used_bins,
        nodes,
        free_nodes,
        scratch,
    )
}

// So many setups, then so many audits; whether the last one said yes.
pub fn drive(setups: u32, audits: u32) -> bool {
    let mut nodes = [0u32; 1048576];
    let mut free_nodes = [0u32; 131072];
    let mut scratch = [0u32; 131072];
    set_up_and_audit(setups, audits, &mut nodes, &mut free_nodes, &mut scratch)
}
