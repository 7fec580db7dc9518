// What a node does in a step: drawn, and decided by what the node holds. oracle/README.md says how, and the oracle draws the same.
ghost use Rattle.std.specs.Prelude.{◌<◌};

use crate::nodes;
use crate::nodes::{Held, Node};
use crate::told::Told;
use packets::Packet;

#[derive(Clone, Copy)]
pub enum Deed {
    // so many bytes
    Take(u32),
    HandBack(Packet),
    // so many bytes, and the first of them
    Fill(Held, u32, u8),
    Read,
    // handed back at a wrong offset, and then read
    HandBackElsewhere(Packet),
    // the packet that was handed back last
    ReadStale(Packet),
}

// A node that never handed a packet back has none to read.
fn of_empty(told: &mut Told, last: Option<Packet>) -> Option<Deed> {
    if told.draw(4) != 0 {
        return Some(Deed::Take(1 + told.draw(nodes::LONGEST as u32)));
    }
    last.map(Deed::ReadStale)
}

// At times with more bytes than the packet holds.
fn fill(told: &mut Told, held: Held) -> Deed {
    let many = told.draw(held.length % 256 + 2);
    let first = told.draw(256);
    Deed::Fill(held, many, first as u8)
}

fn of_holding(told: &mut Told, held: Held) -> Deed {
    match told.draw(8) {
        0 => Deed::HandBack(held.packet),
        1..=3 => fill(told, held),
        4..=6 => Deed::Read,
        _ => Deed::HandBackElsewhere(held.packet),
    }
}

// The number of a node, and what it does, if anything.
#[derive(Clone, Copy)]
pub struct Planned {
    pub at: usize,
    pub deed: Option<Deed>,
    ghost a_node: { at < 800 },
}

pub fn plan(told: &mut Told, nodes: &[Node; nodes::NODES]) -> Planned {
    let at = told.draw(nodes::NODES as u32) as usize;
    let deed = match nodes[at].held {
        Some(held) => Some(of_holding(told, held)),
        None => of_empty(told, nodes[at].last),
    };
    Planned { at, deed }
}
