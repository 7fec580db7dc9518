// Both stores: of each its head, its tables and its bytes. Each call is one of the packet layer's, and nothing else writes the stores' bytes.
use crate::outcomes;
use crate::told::Told;
use offset_allocator::head::Head;
use packets::{Packet, PacketRefusal};
use records::totals::Totals;
use small_float::Size;

const ON_SIZE: u32 = 4096;

const ON_RECORDS: u32 = 48;

const EX_SIZE: u32 = 65536;

const EX_RECORDS: u32 = 900;

// Every byte of both stores at first.
const AT_FIRST: u8 = 7;

// One store.
#[derive(Drop)]
pub struct Side<const NODES: usize, const FREE_NODES: usize, const BYTES: usize> {
    head: Head,
    nodes: [u32; NODES],
    free_nodes: [u32; FREE_NODES],
    bytes: [u8; BYTES],
}

impl<const NODES: usize, const FREE_NODES: usize, const BYTES: usize> Side<
    NODES,
    FREE_NODES,
    BYTES,
> {
    // No store yet.
    fn at_first() -> Self {
        Side {
            head: Head {
                totals: Totals::zeros(),
                bin_indices: [0; 256],
                used_bins: [0; 32],
            },
            nodes: [0; NODES],
            free_nodes: [0; FREE_NODES],
            bytes: [AT_FIRST; BYTES],
        }
    }
}

#[derive(Drop)]
pub struct Stores {
    on: Side<384, 48, 4096>,
    ex: Side<7200, 900, 65536>,
}

impl Stores {
    pub fn at_first() -> Stores {
        Stores {
            on: Side::at_first(),
            ex: Side::at_first(),
        }
    }

    // Both stores set up, each beside the other.
    pub fn set_up(&mut self, told: &mut Told) {
        let on = &mut self.on;
        let ex = &mut self.ex;
        let first = packet_heads::set_up(
            Size(ON_SIZE),
            ON_RECORDS,
            &mut on.nodes,
            &mut on.free_nodes,
            &on.bytes,
            Totals::zeros(),
            &ex.bytes,
        );
        outcomes::of_setup(told, first.answer);
        on.head = first.left;
        let second = packet_heads::set_up(
            Size(EX_SIZE),
            EX_RECORDS,
            &mut ex.nodes,
            &mut ex.free_nodes,
            &ex.bytes,
            on.head.totals,
            &on.bytes,
        );
        outcomes::of_setup(told, second.answer);
        ex.head = second.left;
    }

    pub fn take(&mut self, size: Size) -> Result<Packet, PacketRefusal> {
        let taken = packet_heads::take(
            size,
            self.on.head,
            &mut self.on.nodes,
            &self.on.free_nodes,
            &mut self.on.bytes,
            self.ex.head,
            &mut self.ex.nodes,
            &self.ex.free_nodes,
            &mut self.ex.bytes,
        );
        self.on.head = taken.left.on_chip;
        self.ex.head = taken.left.external;
        taken.answer
    }

    pub fn hand_back(&mut self, packet: Packet) -> Result<(), PacketRefusal> {
        let returned = packet_heads::hand_back(
            packet,
            self.on.head,
            &mut self.on.nodes,
            &mut self.on.free_nodes,
            &self.on.bytes,
            self.ex.head,
            &mut self.ex.nodes,
            &mut self.ex.free_nodes,
            &self.ex.bytes,
        );
        self.on.head = returned.left.on_chip;
        self.ex.head = returned.left.external;
        returned.answer
    }

    // These bytes at the packet's front.
    pub fn fill(&mut self, packet: Packet, new: &[u8]) -> Result<(), PacketRefusal> {
        packet_filling::fill(
            packet,
            new,
            self.on.head.totals,
            &self.on.head.bin_indices,
            &self.on.head.used_bins,
            &self.on.nodes,
            &self.on.free_nodes,
            &mut self.on.bytes,
            self.ex.head.totals,
            &self.ex.head.bin_indices,
            &self.ex.head.used_bins,
            &self.ex.nodes,
            &self.ex.free_nodes,
            &mut self.ex.bytes,
        )
    }

    // The packet's own bytes, in its store; none where it has no such packet.
    pub fn read(&self, packet: Packet) -> &[u8] {
        packet_asking::read(
            packet,
            self.on.head.totals,
            &self.on.head.bin_indices,
            &self.on.head.used_bins,
            &self.on.nodes,
            &self.on.free_nodes,
            &self.on.bytes,
            self.ex.head.totals,
            &self.ex.head.bin_indices,
            &self.ex.head.used_bins,
            &self.ex.nodes,
            &self.ex.free_nodes,
            &self.ex.bytes,
        )
    }

    // The length of a packet.
    pub fn length(&self, packet: Packet) -> Result<Size, PacketRefusal> {
        packet_asking::length(
            packet,
            self.on.head.totals,
            &self.on.head.bin_indices,
            &self.on.head.used_bins,
            &self.on.nodes,
            &self.on.free_nodes,
            &self.on.bytes,
            self.ex.head.totals,
            &self.ex.head.bin_indices,
            &self.ex.head.used_bins,
            &self.ex.nodes,
            &self.ex.free_nodes,
            &self.ex.bytes,
        )
    }
}
