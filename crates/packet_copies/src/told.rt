// What a packet call answered, and what it left.
use crate::sides::Sides;
use answers::StorageReport;
use packets::{Packet, PacketRefusal};
use small_float::Size;

#[derive(Clone, Copy)]
pub enum Told {
    Done,
    Granted(Packet),
    Length(Size),
    Report(StorageReport),
    // how many bytes a read showed, which stand beside: no heap is asked for, and a part of a store is lent no longer than the store
    Shown(usize),
}

// The answer, both stores after it, and what a read showed at the front of as many bytes as a store has.
#[derive(Clone, Copy)]
pub struct Made {
    pub told: Result<Told, PacketRefusal>,
    pub after: Sides,
    pub shown: [u8; 64],
}

// Of a call that reads nothing.
pub fn nothing_read(told: Result<Told, PacketRefusal>, after: Sides) -> Made {
    Made {
        told,
        after,
        shown: [0; 64],
    }
}
