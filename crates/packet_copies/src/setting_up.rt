// Setup of one store, its head by value, and of both, in place.
use crate::sides::{BYTES, Sides};
use crate::told;
use crate::told::{Made, Told};
use packets::Store;
use small_float::Size;

pub fn set_up(store: Store, size: Size, max_allocs: u32, before: Sides) -> Made {
    let mut meant = before.at(store);
    let beside = before.beside(store);
    let started = packet_heads::set_up(
        size,
        max_allocs,
        &mut meant.nodes,
        &mut meant.free_nodes,
        &meant.bytes[..meant.lent.min(BYTES)],
        beside.head.totals,
        &beside.bytes[..beside.lent.min(BYTES)],
    );
    meant.head = started.left;
    told::nothing_read(
        started.answer.map(|()| Told::Done),
        before.with(store, meant),
    )
}

// What is asked of both stores: a size, and a count of records.
#[derive(Clone, Copy)]
pub struct Wanted {
    pub size: u32,
    pub max_allocs: u32,
}

pub fn set_up_both(on_wanted: Wanted, ex_wanted: Wanted, before: Sides) -> Made {
    let mut after = before;
    let on = &mut after.on_chip;
    let ex = &mut after.external;
    let started = packet_starting::set_up_both(
        Size(on_wanted.size),
        on_wanted.max_allocs,
        &mut on.head.bin_indices,
        &mut on.head.used_bins,
        &mut on.nodes,
        &mut on.free_nodes,
        &on.bytes[..on.lent.min(BYTES)],
        Size(ex_wanted.size),
        ex_wanted.max_allocs,
        &mut ex.head.bin_indices,
        &mut ex.head.used_bins,
        &mut ex.nodes,
        &mut ex.free_nodes,
        &ex.bytes[..ex.lent.min(BYTES)],
    );
    on.head.totals = started.left.on_chip;
    ex.head.totals = started.left.external;
    told::nothing_read(started.answer.map(|()| Told::Done), after)
}
