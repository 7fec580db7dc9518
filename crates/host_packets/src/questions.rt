// A packet's length; a store's report, its audit. Nothing is written, but for the audit's scratch.
ghost use Rattle.ledger.specs.Calls.{Ask, Report, span_of, asks_size};
ghost use Rattle.tables.specs.Calls.{edition32};
ghost use Rattle.packets.specs.Stores.{two};
ghost use Rattle.packets.specs.Calls.{LengthOf, ReportOf};
ghost use Rattle.packets.specs.Answers.{refusal_in};
ghost use Rattle.packets.specs.Promise.{PacketPromise, PacketAudit};
ghost use Rattle.host_values.specs.Tells.{Tells};
ghost use Rattle.host_packets.specs.Kept.{store_in};
ghost use Rattle.host_packets.specs.Flat.{store_named, told_in};

use crate::values;
use host_values::Told;
use packets::Store;
use records::totals::Totals;

// A packet's length.
#[unsafe(no_mangle)]
pub extern "C" fn ds_packet_length(
    store: u32,
    offset: u32,
    handle: u32,
    on_scalars: &[u32; Totals::SCALARS],
    on_bins: &[u32; 256],
    on_leaves: &[u8; 32],
    on_nodes: &[u32],
    on_pile: &[u32],
    on_bytes: &[u8],
    ex_scalars: &[u32; Totals::SCALARS],
    ex_bins: &[u32; 256],
    ex_leaves: &[u8; 32],
    ex_nodes: &[u32],
    ex_pile: &[u32],
    ex_bytes: &[u8],
) -> Told
    ensures { let t = two
        (store_in on_scalars.now on_bins.now on_leaves.now
        on_nodes.now on_pile.now on_bytes.now)
        (store_in ex_scalars.now ex_bins.now ex_leaves.now
        ex_nodes.now ex_pile.now ex_bytes.now)
        in Tells (told_in (asks_size offset handle)) (PacketPromise edition32 (LengthOf (store_named store) (span_of offset handle)) t t) result }
{
    let packet = values::packet_of(store, offset, handle);
    let on_chip = Totals::of_array(on_scalars);
    let external = Totals::of_array(ex_scalars);
    values::of_told(packet_asking::length(
        packet, on_chip, on_bins, on_leaves, on_nodes, on_pile, on_bytes, external, ex_bins,
        ex_leaves, ex_nodes, ex_pile, ex_bytes,
    ))
}

// The report of one store.
#[unsafe(no_mangle)]
pub extern "C" fn ds_packet_report(
    store: u32,
    on_scalars: &[u32; Totals::SCALARS],
    on_bins: &[u32; 256],
    on_leaves: &[u8; 32],
    on_nodes: &[u32],
    on_pile: &[u32],
    on_bytes: &[u8],
    ex_scalars: &[u32; Totals::SCALARS],
    ex_bins: &[u32; 256],
    ex_leaves: &[u8; 32],
    ex_nodes: &[u32],
    ex_pile: &[u32],
    ex_bytes: &[u8],
) -> Told
    ensures { let t = two
        (store_in on_scalars.now on_bins.now on_leaves.now
        on_nodes.now on_pile.now on_bytes.now)
        (store_in ex_scalars.now ex_bins.now ex_leaves.now
        ex_nodes.now ex_pile.now ex_bytes.now)
        in Tells (told_in (Ask Report)) (PacketPromise edition32 (ReportOf (store_named store)) t t) result }
{
    let meant = Store::from(store);
    let on_chip = Totals::of_array(on_scalars);
    let external = Totals::of_array(ex_scalars);
    values::of_told(packet_asking::report(
        meant, on_chip, on_bins, on_leaves, on_nodes, on_pile, on_bytes, external, ex_bins,
        ex_leaves, ex_nodes, ex_pile, ex_bytes,
    ))
}

// The audit of one store: 0 if its words stand for a ledger.
#[unsafe(no_mangle)]
pub extern "C" fn ds_packet_audit(
    store: u32,
    scratch: &mut [u32],
    on_scalars: &[u32; Totals::SCALARS],
    on_bins: &[u32; 256],
    on_leaves: &[u8; 32],
    on_nodes: &[u32],
    on_pile: &[u32],
    on_bytes: &[u8],
    ex_scalars: &[u32; Totals::SCALARS],
    ex_bins: &[u32; 256],
    ex_leaves: &[u8; 32],
    ex_nodes: &[u32],
    ex_pile: &[u32],
    ex_bytes: &[u8],
) -> u32
    ensures { Tells refusal_in (PacketAudit edition32 (store_named store)
        (two (store_in on_scalars.now on_bins.now on_leaves.now
        on_nodes.now on_pile.now on_bytes.now)
        (store_in ex_scalars.now ex_bins.now ex_leaves.now
        ex_nodes.now ex_pile.now ex_bytes.now))
        scratch.old scratch.new) result }
{
    let meant = Store::from(store);
    let on_chip = Totals::of_array(on_scalars);
    let external = Totals::of_array(ex_scalars);
    packets::number(packet_asking::audit(
        meant, scratch, on_chip, on_bins, on_leaves, on_nodes, on_pile, on_bytes, external,
        ex_bins, ex_leaves, ex_nodes, ex_pile, ex_bytes,
    ))
}
