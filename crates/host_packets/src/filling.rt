// Fill.
ghost use Rattle.ledger.specs.Calls.{span_of};
ghost use Rattle.tables.specs.Calls.{edition32};
ghost use Rattle.packets.specs.Stores.{two};
ghost use Rattle.packets.specs.Calls.{Fill};
ghost use Rattle.packets.specs.Answers.{refusal_in};
ghost use Rattle.packets.specs.Promise.{PacketPromise};
ghost use Rattle.host_values.specs.Tells.{Tells};
ghost use Rattle.host_packets.specs.Kept.{store_in};
ghost use Rattle.host_packets.specs.Flat.{store_named};

use crate::values;
use records::totals::Totals;

// These bytes at the packet's front.
#[unsafe(no_mangle)]
pub extern "C" fn ds_packet_fill(
    store: u32,
    offset: u32,
    handle: u32,
    new: &[u8],
    on_scalars: &[u32; Totals::SCALARS],
    on_bins: &[u32; 256],
    on_leaves: &[u8; 32],
    on_nodes: &[u32],
    on_pile: &[u32],
    on_bytes: &mut [u8],
    ex_scalars: &[u32; Totals::SCALARS],
    ex_bins: &[u32; 256],
    ex_leaves: &[u8; 32],
    ex_nodes: &[u32],
    ex_pile: &[u32],
    ex_bytes: &mut [u8],
) -> u32
    ensures { Tells refusal_in (PacketPromise edition32 (Fill (store_named store) (span_of offset handle) new.now)
        (two (store_in on_scalars.now on_bins.now on_leaves.now
        on_nodes.now on_pile.now on_bytes.old)
        (store_in ex_scalars.now ex_bins.now ex_leaves.now
        ex_nodes.now ex_pile.now ex_bytes.old))
        (two (store_in on_scalars.now on_bins.now on_leaves.now
        on_nodes.now on_pile.now on_bytes.new)
        (store_in ex_scalars.now ex_bins.now ex_leaves.now
        ex_nodes.now ex_pile.now ex_bytes.new))) result }
{
    let packet = values::packet_of(store, offset, handle);
    let on_chip = Totals::of_array(on_scalars);
    let external = Totals::of_array(ex_scalars);
    packets::number(packet_filling::fill(
        packet, new, on_chip, on_bins, on_leaves, on_nodes, on_pile, on_bytes, external, ex_bins,
        ex_leaves, ex_nodes, ex_pile, ex_bytes,
    ))
}
