// Reads: of a packet that is held, and of one that went back. Nothing is written.
use crate::nodes::{NODES, Node};
use crate::outcomes;
use crate::stores::Stores;
use crate::told::Told;
use packets::Packet;

// The packet that a node holds, if it holds one.
pub fn read_held(told: &mut Told, ended: bool, node: &Node, stores: &Stores) {
    if let Some(held) = node.held {
        outcomes::of_read(told, ended, stores.read(held.packet), node.bytes());
    }
}

// The packet that a node handed back last, and its length.
pub fn read_stale(told: &mut Told, packet: Packet, nodes: &[Node; NODES], stores: &Stores) {
    let answer = stores.length(packet);
    outcomes::of_stale(told, packet, stores.read(packet), answer, nodes);
}
