// Take and hand back.
ghost use Rattle.ledger.specs.Calls.{span_of};
ghost use Rattle.tables.specs.Calls.{edition32};
ghost use Rattle.packets.specs.Stores.{two};
ghost use Rattle.packets.specs.Calls.{Take, HandBack};
ghost use Rattle.packets.specs.Answers.{refusal_in};
ghost use Rattle.packets.specs.Promise.{PacketPromise};
ghost use Rattle.host_values.specs.Tells.{Tells};
ghost use Rattle.host_packets.specs.Kept.{store_in};
ghost use Rattle.host_packets.specs.Flat.{store_named, packet_told};

use crate::values;
use crate::values::Packet;
use records::totals::Totals;
use small_float::Size;

// A packet of this size: on chip first, then external. Every byte of it is marked as not heard.
#[unsafe(no_mangle)]
pub extern "C" fn ds_packet_take(
    size: u32,
    on_scalars: &mut [u32; Totals::SCALARS],
    on_bins: &mut [u32; 256],
    on_leaves: &mut [u8; 32],
    on_nodes: &mut [u32],
    on_pile: &[u32],
    on_bytes: &mut [u8],
    ex_scalars: &mut [u32; Totals::SCALARS],
    ex_bins: &mut [u32; 256],
    ex_leaves: &mut [u8; 32],
    ex_nodes: &mut [u32],
    ex_pile: &[u32],
    ex_bytes: &mut [u8],
) -> Packet
    ensures { Tells packet_told (PacketPromise edition32 (Take record { size = size })
        (two (store_in on_scalars.old on_bins.old on_leaves.old
        on_nodes.old on_pile.now on_bytes.old)
        (store_in ex_scalars.old ex_bins.old ex_leaves.old
        ex_nodes.old ex_pile.now ex_bytes.old))
        (two (store_in on_scalars.new on_bins.new on_leaves.new
        on_nodes.new on_pile.now on_bytes.new)
        (store_in ex_scalars.new ex_bins.new ex_leaves.new
        ex_nodes.new ex_pile.now ex_bytes.new))) result }
{
    let on_chip = Totals::of_array(on_scalars);
    let external = Totals::of_array(ex_scalars);
    let taken = packet_taking::take(
        Size(size),
        on_chip,
        on_bins,
        on_leaves,
        on_nodes,
        on_pile,
        on_bytes,
        external,
        ex_bins,
        ex_leaves,
        ex_nodes,
        ex_pile,
        ex_bytes,
    );
    host_values::keep(taken.left.on_chip, on_scalars);
    host_values::keep(taken.left.external, ex_scalars);
    values::of_grant(taken.answer)
}

// A packet goes back.
#[unsafe(no_mangle)]
pub extern "C" fn ds_packet_give(
    store: u32,
    offset: u32,
    handle: u32,
    on_scalars: &mut [u32; Totals::SCALARS],
    on_bins: &mut [u32; 256],
    on_leaves: &mut [u8; 32],
    on_nodes: &mut [u32],
    on_pile: &mut [u32],
    on_bytes: &[u8],
    ex_scalars: &mut [u32; Totals::SCALARS],
    ex_bins: &mut [u32; 256],
    ex_leaves: &mut [u8; 32],
    ex_nodes: &mut [u32],
    ex_pile: &mut [u32],
    ex_bytes: &[u8],
) -> u32
    ensures { Tells refusal_in (PacketPromise edition32 (HandBack (store_named store) (span_of offset handle))
        (two (store_in on_scalars.old on_bins.old on_leaves.old
        on_nodes.old on_pile.old on_bytes.now)
        (store_in ex_scalars.old ex_bins.old ex_leaves.old
        ex_nodes.old ex_pile.old ex_bytes.now))
        (two (store_in on_scalars.new on_bins.new on_leaves.new
        on_nodes.new on_pile.new on_bytes.now)
        (store_in ex_scalars.new ex_bins.new ex_leaves.new
        ex_nodes.new ex_pile.new ex_bytes.now))) result }
{
    let packet = values::packet_of(store, offset, handle);
    let on_chip = Totals::of_array(on_scalars);
    let external = Totals::of_array(ex_scalars);
    let returned = packet_giving::hand_back(
        packet, on_chip, on_bins, on_leaves, on_nodes, on_pile, on_bytes, external, ex_bins,
        ex_leaves, ex_nodes, ex_pile, ex_bytes,
    );
    host_values::keep(returned.left.on_chip, on_scalars);
    host_values::keep(returned.left.external, ex_scalars);
    packets::number(returned.answer)
}
