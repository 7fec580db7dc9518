// The words that setup and reset write: the two arrays cleared, each record below the count not live, each on the pile.
//
// Private to the allocator, though Rattle has no word for that: the room that is required here the gate has tested.
#![tactic(auto)]

ghost use Rattle.std.specs.Prelude.{◌≡◌, ◌≤◌, length, replicate};
ghost use Rattle.tables.specs.Setup.{wiped, piled};
ghost use Rattle.records.specs.InWords.{HasRoom};

use answers::Handle;
use records::nodes;
use records::nodes::Field;

// Every class has this top.
pub fn clear_bin_indices(bin_indices: &mut [u32; 256], top: u32)
    ensures { bin_indices.new ≡ replicate 256 top }
{
    *bin_indices = [top; 256];
}

pub fn clear_used_bins(used_bins: &mut [u8; 32])
    ensures { used_bins.new ≡ replicate 32 0 }
{
    *used_bins = [0u8; 32];
}

// The other words of a record stay as they came: nothing reads them before they are written. That the table holds every record the gate
// has tested.
pub fn mark_not_live(nodes: &mut [u32], max_allocs: u32)
    requires { HasRoom max_allocs nodes.old }
    ensures { nodes.new ≡ wiped max_allocs nodes.old }
{
    for r in 0..max_allocs {
        nodes::put(nodes, Handle(r), Field::Used, 0);
    }
}

// In inverse order, so that record 0 is on top. That the pile holds as many numbers the gate has tested.
pub fn pile_up(free_nodes: &mut [u32], max_allocs: u32)
    requires { max_allocs ≤ length free_nodes.old }
    ensures { free_nodes.new ≡ piled max_allocs max_allocs free_nodes.old }
{
    for i in 0..max_allocs {
        free_nodes[i as usize] = max_allocs - i - 1;
    }
}
