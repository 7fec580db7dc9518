// One step of the day: a node is drawn and what it does, the call is made, and what came of it is held to the model.
use crate::deeds::Deed;
use crate::nodes::{Held, NODES, Node};
use crate::stores::Stores;
use crate::told::Told;
use crate::{deeds, nodes, outcomes, reads, runs};
use packets::Packet;
use small_float::Size;

fn fill(told: &mut Told, stores: &mut Stores, node: &mut Node, held: Held, many: u32, first: u8) {
    let mut new = [0; 256];
    runs::write(&mut new, first);
    let answer = stores.fill(held.packet, &new[..256.min(many as usize)]);
    outcomes::of_fill(told, node, held, many, first, answer);
}

fn hand_back_elsewhere(told: &mut Told, stores: &mut Stores, node: &Node, packet: Packet) {
    let answer = stores.hand_back(nodes::beside(packet));
    outcomes::of_wrong_name(told, answer);
    reads::read_held(told, false, node, stores);
}

pub fn step(told: &mut Told, stores: &mut Stores, nodes: &mut [Node; NODES]) {
    let planned = deeds::plan(told, nodes);
    let node = &mut nodes[planned.at];
    match planned.deed {
        None => {}
        Some(Deed::Take(many)) => {
            let answer = stores.take(Size(many));
            outcomes::of_take(told, node, many, answer);
        }
        Some(Deed::HandBack(packet)) => {
            let answer = stores.hand_back(packet);
            outcomes::of_back(told, node, packet, answer);
        }
        Some(Deed::Fill(held, many, first)) => fill(told, stores, node, held, many, first),
        Some(Deed::Read) => reads::read_held(told, false, node, stores),
        Some(Deed::HandBackElsewhere(packet)) => hand_back_elsewhere(told, stores, node, packet),
        Some(Deed::ReadStale(packet)) => reads::read_stale(told, packet, nodes, stores),
    }
}
