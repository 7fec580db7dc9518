// The questions, in place: nothing changes.
use crate::sides::{BYTES, Side, Sides};
use crate::told::{Made, Told};
use answers::StorageReport;
use packets::{Packet, PacketRefusal, Store};
use small_float::Size;

#[derive(Clone, Copy)]
pub enum Question {
    Read(Packet),
    Length(Packet),
    Report(Store),
    Audit(Store),
}

// The bytes are copied out, for a part lasts no longer than what it is a part of. No part is longer than a store; one that were would be told as 65.
fn shown_by(part: &[u8], shown: &mut [u8; 64]) -> Told {
    if 64 < part.len() {
        return Told::Shown(65);
    }
    shown[..part.len()].copy_from_slice(part);
    Told::Shown(part.len())
}

// Here and below each part of both stores is named: the packet layer's contracts speak of each, and one function over its functions would be an `Fn` of
// thirteen parameters, where twelve are the most.
fn read(packet: Packet, on: &Side, ex: &Side, shown: &mut [u8; 64]) -> Told {
    let part = packet_asking::read(
        packet,
        on.head.totals,
        &on.head.bin_indices,
        &on.head.used_bins,
        &on.nodes,
        &on.free_nodes,
        &on.bytes[..on.lent.min(BYTES)],
        ex.head.totals,
        &ex.head.bin_indices,
        &ex.head.used_bins,
        &ex.nodes,
        &ex.free_nodes,
        &ex.bytes[..ex.lent.min(BYTES)],
    );
    shown_by(part, shown)
}

fn length(packet: Packet, on: &Side, ex: &Side) -> Result<Size, PacketRefusal> {
    packet_asking::length(
        packet,
        on.head.totals,
        &on.head.bin_indices,
        &on.head.used_bins,
        &on.nodes,
        &on.free_nodes,
        &on.bytes[..on.lent.min(BYTES)],
        ex.head.totals,
        &ex.head.bin_indices,
        &ex.head.used_bins,
        &ex.nodes,
        &ex.free_nodes,
        &ex.bytes[..ex.lent.min(BYTES)],
    )
}

fn report(store: Store, on: &Side, ex: &Side) -> Result<StorageReport, PacketRefusal> {
    packet_asking::report(
        store,
        on.head.totals,
        &on.head.bin_indices,
        &on.head.used_bins,
        &on.nodes,
        &on.free_nodes,
        &on.bytes[..on.lent.min(BYTES)],
        ex.head.totals,
        &ex.head.bin_indices,
        &ex.head.used_bins,
        &ex.nodes,
        &ex.free_nodes,
        &ex.bytes[..ex.lent.min(BYTES)],
    )
}

fn audit(store: Store, on: &Side, ex: &Side) -> Result<(), PacketRefusal> {
    let mut scratch = [7u32; 16];
    packet_asking::audit(
        store,
        &mut scratch,
        on.head.totals,
        &on.head.bin_indices,
        &on.head.used_bins,
        &on.nodes,
        &on.free_nodes,
        &on.bytes[..on.lent.min(BYTES)],
        ex.head.totals,
        &ex.head.bin_indices,
        &ex.head.used_bins,
        &ex.nodes,
        &ex.free_nodes,
        &ex.bytes[..ex.lent.min(BYTES)],
    )
}

pub fn ask(question: Question, before: Sides) -> Made {
    let on = &before.on_chip;
    let ex = &before.external;
    let mut shown = [0; 64];
    let told = match question {
        Question::Read(packet) => Ok(read(packet, on, ex, &mut shown)),
        Question::Length(packet) => length(packet, on, ex).map(Told::Length),
        Question::Report(store) => report(store, on, ex).map(Told::Report),
        Question::Audit(store) => audit(store, on, ex).map(|()| Told::Done),
    };
    Made {
        told,
        after: before,
        shown,
    }
}
