// Fill, in place.
use crate::sides::Sides;
use crate::told::{Made, Told};
use crate::{sides, told};
use packets::Packet;

// This byte, and each other one more, modulo 256.
pub fn counted_from(first: u8) -> [u8; 80] {
    let mut new = [0; 80];
    for i in 0..80u8 {
        new[i as usize] = first.wrapping_add(i);
    }
    new
}

// So many bytes, the first of these.
pub fn fill(packet: Packet, new: [u8; 80], many: usize, before: Sides) -> Made {
    let mut after = before;
    let on = &mut after.on_chip;
    let ex = &mut after.external;
    let filled = packet_filling::fill(
        packet,
        &new[..many.min(80)],
        on.head.totals,
        &on.head.bin_indices,
        &on.head.used_bins,
        &on.nodes,
        &on.free_nodes,
        sides::lent_mut(&mut on.bytes, on.lent),
        ex.head.totals,
        &ex.head.bin_indices,
        &ex.head.used_bins,
        &ex.nodes,
        &ex.free_nodes,
        sides::lent_mut(&mut ex.bytes, ex.lent),
    );
    told::nothing_read(filled.map(|()| Told::Done), after)
}
