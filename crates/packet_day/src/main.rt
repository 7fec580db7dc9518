// A day of a base station on the packet layer: 800 nodes take, fill, read and hand back packets of 1 to 200 bytes, in a store of 4 KiB on the chip and
// one of 64 KiB outside it. Each answer and each byte read is held to a plain model, and a digest hangs on them all. What must be printed was made by
// the oracle's own packet layer (oracle/README.md).
#![tactic(auto)]

mod deeds;
mod nodes;
mod outcomes;
mod reads;
mod runs;
mod steps;
mod stores;
mod told;

use nodes::{NODES, Node};
use stores::Stores;
use told::Told;

const STEPS: u32 = 100000;

// How many steps between two lines.
const STRIDE: u32 = 10000;

fn main(rt: HostRuntime) {
    let mut told = Told::at_first();
    let mut stores = Stores::at_first();
    let mut nodes = [Node::at_first(); NODES];
    stores.set_up(&mut told);
    for i in 1..=STEPS {
        steps::step(&mut told, &mut stores, &mut nodes);
        if i % STRIDE == 0 {
            let _ = println!(rt; "{i} {}", told.digest);
        }
    }
    // What is held at the end, in the order of the nodes.
    for node in &nodes {
        reads::read_held(&mut told, true, node, &stores);
    }
    let _ = println!(rt; "{told}");
}
