// The packet calls that change a head, with both heads by value: they go in and come out. Fill, read and the questions change none; they are called in
// place (`packet_filling`, `packet_asking`), lent the parts of both heads to be read.
#![tactic(auto)]

ghost use Rattle.std.specs.Prelude.{List, ℕ, replicate};
ghost use Rattle.tables.specs.Calls.{edition32};
ghost use Rattle.answers.specs.Asked.{request_of, token_of};
ghost use Rattle.records.specs.declared.totals.Totals.{Totals};
ghost use Rattle.packets.specs.declared.Store.{Store};
ghost use Rattle.packets.specs.Stores.{two, placed, store_of};
ghost use Rattle.packets.specs.Calls.{Take, HandBack};
ghost use Rattle.packets.specs.Answers.{done_says, grant_says};
ghost use Rattle.packets.specs.Promise.{PacketPromise, PacketSetup};
ghost use Rattle.packet_heads.specs.HeadStores.{head_store};

use offset_allocator::head::Head;
use packets::{Both, Outcome, Packet};
use records::totals::Totals;
use small_float::Size;

// A store of this size and with this many records, beside the other one; the same for either store. Refused, what is left is a head of zeros.
pub fn set_up(
    size: Size,
    max_allocs: u32,
    nodes: &mut [u32],
    free_nodes: &mut [u32],
    bytes: &[u8],
    beside: Totals,
    bytes_beside: &[u8],
) -> Outcome<(), Head>
    ensures { (s : Store) (t : Totals) (heads leaves others-nodes others-pile : List ℕ) → PacketSetup edition32 s size.0 max_allocs
        (placed s (store_of t (replicate 256 0) (replicate 32 0) nodes.old free_nodes.old bytes.now)
        (store_of beside heads leaves others-nodes others-pile bytes_beside.now))
        (placed s (head_store result.left nodes.new free_nodes.new bytes.now)
        (store_of beside heads leaves others-nodes others-pile bytes_beside.now))
        (done_says result.answer) }
{
    let mut bin_indices = [0u32; 256];
    let mut used_bins = [0u8; 32];
    let started = packet_starting::set_up(
        size,
        max_allocs,
        &mut bin_indices,
        &mut used_bins,
        nodes,
        free_nodes,
        bytes,
        beside,
        bytes_beside,
    );
    Outcome {
        answer: started.answer,
        left: Head {
            totals: started.left,
            bin_indices,
            used_bins,
        },
    }
}

// A packet of this size with every byte of it marked as not heard, or the refusal of the last store tried.
pub fn take(
    size: Size,
    on_chip: Head,
    on_nodes: &mut [u32],
    on_free_nodes: &[u32],
    on_bytes: &mut [u8],
    external: Head,
    ex_nodes: &mut [u32],
    ex_free_nodes: &[u32],
    ex_bytes: &mut [u8],
) -> Outcome<Packet, Both<Head>>
    ensures { PacketPromise edition32 (Take (request_of size))
        (two (head_store on_chip on_nodes.old on_free_nodes.now on_bytes.old)
        (head_store external ex_nodes.old ex_free_nodes.now ex_bytes.old))
        (two (head_store result.left.on_chip on_nodes.new on_free_nodes.now on_bytes.new)
        (head_store result.left.external ex_nodes.new ex_free_nodes.now ex_bytes.new))
        (grant_says result.answer) }
{
    let mut on = on_chip;
    let mut ex = external;
    let taken = packet_taking::take(
        size,
        on.totals,
        &mut on.bin_indices,
        &mut on.used_bins,
        on_nodes,
        on_free_nodes,
        on_bytes,
        ex.totals,
        &mut ex.bin_indices,
        &mut ex.used_bins,
        ex_nodes,
        ex_free_nodes,
        ex_bytes,
    );
    on.totals = taken.left.on_chip;
    ex.totals = taken.left.external;
    Outcome {
        answer: taken.answer,
        left: Both {
            on_chip: on,
            external: ex,
        },
    }
}

// The packet's span goes back to its store, or why not.
pub fn hand_back(
    packet: Packet,
    on_chip: Head,
    on_nodes: &mut [u32],
    on_free_nodes: &mut [u32],
    on_bytes: &[u8],
    external: Head,
    ex_nodes: &mut [u32],
    ex_free_nodes: &mut [u32],
    ex_bytes: &[u8],
) -> Outcome<(), Both<Head>>
    ensures { PacketPromise edition32 (HandBack packet.store (token_of packet.span))
        (two (head_store on_chip on_nodes.old on_free_nodes.old on_bytes.now)
        (head_store external ex_nodes.old ex_free_nodes.old ex_bytes.now))
        (two (head_store result.left.on_chip on_nodes.new on_free_nodes.new on_bytes.now)
        (head_store result.left.external ex_nodes.new ex_free_nodes.new ex_bytes.now))
        (done_says result.answer) }
{
    let mut on = on_chip;
    let mut ex = external;
    let returned = packet_giving::hand_back(
        packet,
        on.totals,
        &mut on.bin_indices,
        &mut on.used_bins,
        on_nodes,
        on_free_nodes,
        on_bytes,
        ex.totals,
        &mut ex.bin_indices,
        &mut ex.used_bins,
        ex_nodes,
        ex_free_nodes,
        ex_bytes,
    );
    on.totals = returned.left.on_chip;
    ex.totals = returned.left.external;
    Outcome {
        answer: returned.answer,
        left: Both {
            on_chip: on,
            external: ex,
        },
    }
}
