// What is asked of packets and of their stores, in place: a packet's bytes, its length; a store's report, its audit. Nothing is written, but for the
// audit's scratch.
#![tactic(auto)]

ghost use Rattle.answers.specs.Asked.{token_of};
ghost use Rattle.tables.specs.Calls.{edition32};
ghost use Rattle.packets.specs.Stores.{two, store_of};
ghost use Rattle.packets.specs.Calls.{Read, LengthOf, ReportOf, shows};
ghost use Rattle.packets.specs.Answers.{done_says, length_says, report_says};
ghost use Rattle.packets.specs.Promise.{PacketPromise, PacketAudit};

use answers::StorageReport;
use packets::{Packet, PacketRefusal, Store};
use records::totals::Totals;
use small_float::Size;

// The part of whichever store holds the packet, never a copy; an empty part on a refusal, which the length tells from an empty packet.
pub fn read<'a>(
    packet: Packet,
    on_chip: Totals,
    on_bin_indices: &[u32; 256],
    on_used_bins: &[u8; 32],
    on_nodes: &[u32],
    on_free_nodes: &[u32],
    on_bytes: &'a [u8],
    external: Totals,
    ex_bin_indices: &[u32; 256],
    ex_used_bins: &[u8; 32],
    ex_nodes: &[u32],
    ex_free_nodes: &[u32],
    ex_bytes: &'a [u8],
) -> &'a [u8]
    ensures { let t = two
        (store_of on_chip on_bin_indices.now on_used_bins.now on_nodes.now
        on_free_nodes.now on_bytes.now)
        (store_of external ex_bin_indices.now ex_used_bins.now ex_nodes.now
        ex_free_nodes.now ex_bytes.now)
        in PacketPromise edition32 (Read packet.store (token_of packet.span)) t t
        (shows result.now) }
{
    if packet_store::too_short(on_chip.size, on_bytes, external.size, ex_bytes) {
        return parts::no_part(on_bytes);
    }
    let span = packet.span;
    // an arm for each store here and below, as in `packet_giving`
    match packet.store {
        Store::OnChip => packet_store::read(
            on_chip,
            span,
            on_bin_indices,
            on_used_bins,
            on_nodes,
            on_free_nodes,
            on_bytes,
        ),
        Store::External => packet_store::read(
            external,
            span,
            ex_bin_indices,
            ex_used_bins,
            ex_nodes,
            ex_free_nodes,
            ex_bytes,
        ),
    }
}

// A packet's length, or why it cannot be read.
pub fn length(
    packet: Packet,
    on_chip: Totals,
    on_bin_indices: &[u32; 256],
    on_used_bins: &[u8; 32],
    on_nodes: &[u32],
    on_free_nodes: &[u32],
    on_bytes: &[u8],
    external: Totals,
    ex_bin_indices: &[u32; 256],
    ex_used_bins: &[u8; 32],
    ex_nodes: &[u32],
    ex_free_nodes: &[u32],
    ex_bytes: &[u8],
) -> Result<Size, PacketRefusal>
    ensures { let t = two
        (store_of on_chip on_bin_indices.now on_used_bins.now on_nodes.now
        on_free_nodes.now on_bytes.now)
        (store_of external ex_bin_indices.now ex_used_bins.now ex_nodes.now
        ex_free_nodes.now ex_bytes.now)
        in PacketPromise edition32 (LengthOf packet.store (token_of packet.span)) t t
        (length_says result) }
{
    if packet_store::too_short(on_chip.size, on_bytes, external.size, ex_bytes) {
        return Err(PacketRefusal::StoreTooShort);
    }
    let span = packet.span;
    match packet.store {
        Store::OnChip => {
            packets::of_store(packet_store::length_of(
                on_chip,
                span,
                on_bin_indices,
                on_used_bins,
                on_nodes,
                on_free_nodes,
            ))
        }
        Store::External => {
            packets::of_store(packet_store::length_of(
                external,
                span,
                ex_bin_indices,
                ex_used_bins,
                ex_nodes,
                ex_free_nodes,
            ))
        }
    }
}

// The report of one store.
pub fn report(
    store: Store,
    on_chip: Totals,
    on_bin_indices: &[u32; 256],
    on_used_bins: &[u8; 32],
    on_nodes: &[u32],
    on_free_nodes: &[u32],
    on_bytes: &[u8],
    external: Totals,
    ex_bin_indices: &[u32; 256],
    ex_used_bins: &[u8; 32],
    ex_nodes: &[u32],
    ex_free_nodes: &[u32],
    ex_bytes: &[u8],
) -> Result<StorageReport, PacketRefusal>
    ensures { let t = two
        (store_of on_chip on_bin_indices.now on_used_bins.now on_nodes.now
        on_free_nodes.now on_bytes.now)
        (store_of external ex_bin_indices.now ex_used_bins.now ex_nodes.now
        ex_free_nodes.now ex_bytes.now)
        in PacketPromise edition32 (ReportOf store) t t
        (report_says result) }
{
    if packet_store::too_short(on_chip.size, on_bytes, external.size, ex_bytes) {
        return Err(PacketRefusal::StoreTooShort);
    }
    match store {
        Store::OnChip => packets::of_store(asking::storage_report(
            on_chip,
            on_bin_indices,
            on_used_bins,
            on_nodes,
            on_free_nodes,
        )),
        Store::External => packets::of_store(asking::storage_report(
            external,
            ex_bin_indices,
            ex_used_bins,
            ex_nodes,
            ex_free_nodes,
        )),
    }
}

// The audit of one store: done, if its tables are sound.
pub fn audit(
    store: Store,
    scratch: &mut [u32],
    on_chip: Totals,
    on_bin_indices: &[u32; 256],
    on_used_bins: &[u8; 32],
    on_nodes: &[u32],
    on_free_nodes: &[u32],
    on_bytes: &[u8],
    external: Totals,
    ex_bin_indices: &[u32; 256],
    ex_used_bins: &[u8; 32],
    ex_nodes: &[u32],
    ex_free_nodes: &[u32],
    ex_bytes: &[u8],
) -> Result<(), PacketRefusal>
    ensures { PacketAudit edition32 store
        (two (store_of on_chip on_bin_indices.now on_used_bins.now on_nodes.now
        on_free_nodes.now on_bytes.now)
        (store_of external ex_bin_indices.now ex_used_bins.now ex_nodes.now
        ex_free_nodes.now ex_bytes.now))
        scratch.old scratch.new (done_says result) }
{
    if packet_store::too_short(on_chip.size, on_bytes, external.size, ex_bytes) {
        return Err(PacketRefusal::StoreTooShort);
    }
    match store {
        Store::OnChip => packets::of_store(auditing::audit(
            on_chip,
            on_bin_indices,
            on_used_bins,
            on_nodes,
            on_free_nodes,
            scratch,
        )),
        Store::External => packets::of_store(auditing::audit(
            external,
            ex_bin_indices,
            ex_used_bins,
            ex_nodes,
            ex_free_nodes,
            scratch,
        )),
    }
}
