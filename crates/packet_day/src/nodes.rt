// The plain model: what each node holds, what must stand in that, and what it handed back last.
use packets::Packet;

pub const NODES: usize = 800;

// The longest packet.
pub const LONGEST: usize = 200;

// A packet that a node holds, and how many bytes it asked for.
#[derive(Clone, Copy)]
pub struct Held {
    pub packet: Packet,
    pub length: u32,
}

#[derive(Clone, Copy)]
pub struct Node {
    pub held: Option<Held>,
    // the packet that it handed back last
    pub last: Option<Packet>,
    // what must stand in the packet that it holds, at its front
    bytes: [u8; LONGEST],
}

// The same record, but one behind its offset.
pub fn beside(packet: Packet) -> Packet {
    let span = packet.span;
    Packet::named(packet.store, span.offset.wrapping_add(1), span.metadata.0)
}

impl Node {
    pub fn at_first() -> Node {
        Node {
            held: None,
            last: None,
            bytes: [0; LONGEST],
        }
    }

    // Whether the node holds a packet of this name.
    pub fn holds(&self, packet: Packet) -> bool {
        match self.held {
            Some(held) => held.packet == packet,
            None => false,
        }
    }

    // What must stand in the packet that the node holds.
    pub fn bytes(&self) -> &[u8] {
        match self.held {
            Some(held) => &self.bytes[..LONGEST.min(held.length as usize)],
            None => &[],
        }
    }

    // The first bytes, so many of them, to be set.
    pub fn front(&mut self, n: u32) -> &mut [u8] {
        let end = LONGEST.min(n as usize);
        &mut self.bytes[..end]
    }
}
