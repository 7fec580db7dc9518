// Fill a packet, in place: just its own bytes inside its store are lent on, to be written.
#![tactic(auto)]

ghost use Rattle.answers.specs.Asked.{token_of};
ghost use Rattle.tables.specs.Calls.{edition32};
ghost use Rattle.packets.specs.Stores.{two, store_of};
ghost use Rattle.packets.specs.Calls.{Fill};
ghost use Rattle.packets.specs.Answers.{done_says};
ghost use Rattle.packets.specs.Promise.{PacketPromise};

use packets::{Packet, PacketRefusal, Store};
use records::totals::Totals;

// These bytes at the packet's front; 17, after all else, where they are more than it holds.
pub fn fill(
    packet: Packet,
    new: &[u8],
    on_chip: Totals,
    on_bin_indices: &[u32; 256],
    on_used_bins: &[u8; 32],
    on_nodes: &[u32],
    on_free_nodes: &[u32],
    on_bytes: &mut [u8],
    external: Totals,
    ex_bin_indices: &[u32; 256],
    ex_used_bins: &[u8; 32],
    ex_nodes: &[u32],
    ex_free_nodes: &[u32],
    ex_bytes: &mut [u8],
) -> Result<(), PacketRefusal>
    ensures { PacketPromise edition32 (Fill packet.store (token_of packet.span) new.now)
        (two (store_of on_chip on_bin_indices.now on_used_bins.now on_nodes.now
        on_free_nodes.now on_bytes.old)
        (store_of external ex_bin_indices.now ex_used_bins.now ex_nodes.now
        ex_free_nodes.now ex_bytes.old))
        (two (store_of on_chip on_bin_indices.now on_used_bins.now on_nodes.now
        on_free_nodes.now on_bytes.new)
        (store_of external ex_bin_indices.now ex_used_bins.now ex_nodes.now
        ex_free_nodes.now ex_bytes.new))
        (done_says result) }
{
    if packet_store::too_short(on_chip.size, on_bytes, external.size, ex_bytes) {
        return Err(PacketRefusal::StoreTooShort);
    }
    let span = packet.span;
    // an arm for each store, as in `packet_giving`
    match packet.store {
        Store::OnChip => packet_store::fill(
            on_chip,
            span,
            new,
            on_bin_indices,
            on_used_bins,
            on_nodes,
            on_free_nodes,
            on_bytes,
        ),
        Store::External => packet_store::fill(
            external,
            span,
            new,
            ex_bin_indices,
            ex_used_bins,
            ex_nodes,
            ex_free_nodes,
            ex_bytes,
        ),
    }
}
