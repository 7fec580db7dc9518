// Take and hand back, with both heads by value.
use crate::sides::{BYTES, Sides};
use crate::told::{Made, Told};
use crate::{sides, told};
use packets::Packet;
use small_float::Size;

pub fn take(size: Size, before: Sides) -> Made {
    let mut after = before;
    let on = &mut after.on_chip;
    let ex = &mut after.external;
    let taken = packet_heads::take(
        size,
        on.head,
        &mut on.nodes,
        &on.free_nodes,
        sides::lent_mut(&mut on.bytes, on.lent),
        ex.head,
        &mut ex.nodes,
        &ex.free_nodes,
        sides::lent_mut(&mut ex.bytes, ex.lent),
    );
    on.head = taken.left.on_chip;
    ex.head = taken.left.external;
    told::nothing_read(taken.answer.map(Told::Granted), after)
}

pub fn hand_back(packet: Packet, before: Sides) -> Made {
    let mut after = before;
    let on = &mut after.on_chip;
    let ex = &mut after.external;
    let returned = packet_heads::hand_back(
        packet,
        on.head,
        &mut on.nodes,
        &mut on.free_nodes,
        &on.bytes[..on.lent.min(BYTES)],
        ex.head,
        &mut ex.nodes,
        &mut ex.free_nodes,
        &ex.bytes[..ex.lent.min(BYTES)],
    );
    on.head = returned.left.on_chip;
    ex.head = returned.left.external;
    told::nothing_read(returned.answer.map(|()| Told::Done), after)
}
