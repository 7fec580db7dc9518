// Setup of one store, whichever of the two, or of both, in place. No byte changes: a packet's are marked when it is taken.
#![tactic(auto)]

ghost use Rattle.std.specs.Prelude.{◌≡◌, List, ℕ};
ghost use Rattle.tables.specs.Calls.{edition32};
ghost use Rattle.records.specs.declared.totals.Totals.{Totals};
ghost use Rattle.packets.specs.declared.Store.{Store};
ghost use Rattle.packets.specs.Stores.{two, placed, store_of};
ghost use Rattle.packets.specs.Calls.{plain};
ghost use Rattle.ledger.specs.Ledger.{refused};
ghost use Rattle.records.specs.InWords.{zero_totals};
ghost use Rattle.packets.specs.Answers.{why_number, done_says};
ghost use Rattle.packets.specs.Promise.{PacketSetup, PacketSetupBoth};

use answers::Refusal;
use packets::{Both, Outcome, PacketRefusal};
use records::totals::Totals;
use small_float::Size;

// A store of this size and with this many records, beside the other one, of which the head's scalars and the bytes are asked for: 9 looks at both stores.
// It is the same for either store. Refused, the scalars are zeros, as of no store.
pub fn set_up(
    size: Size,
    max_allocs: u32,
    bin_indices: &mut [u32; 256],
    used_bins: &mut [u8; 32],
    nodes: &mut [u32],
    free_nodes: &mut [u32],
    bytes: &[u8],
    beside: Totals,
    bytes_beside: &[u8],
) -> Outcome<(), Totals>
    ensures { (s : Store) (t : Totals) (heads leaves others-nodes others-pile : List ℕ) → PacketSetup edition32 s size.0 max_allocs
        (placed s (store_of t bin_indices.old used_bins.old nodes.old free_nodes.old
        bytes.now)
        (store_of beside heads leaves others-nodes others-pile bytes_beside.now))
        (placed s (store_of result.left bin_indices.new used_bins.new nodes.new free_nodes.new
        bytes.now)
        (store_of beside heads leaves others-nodes others-pile bytes_beside.now))
        (done_says result.answer) }
{
    if packet_store::too_short(size.0, bytes, beside.size, bytes_beside) {
        return Outcome {
            answer: Err(PacketRefusal::StoreTooShort),
            left: Totals::zeros(),
        };
    }
    let started = starting::with_max_allocs(
        size,
        max_allocs,
        bin_indices,
        used_bins,
        nodes,
        free_nodes,
    );
    Outcome {
        answer: packets::of_store(started.answer),
        left: started.totals,
    }
}

// A refused setup of both leaves no store.
fn neither(why: PacketRefusal) -> Outcome<(), Both<Totals>>
    ensures { (done_says result.answer ≡ plain (refused (why_number why))) × (result.left.on_chip ≡ zero_totals) × (result.left.external ≡ zero_totals) }
{
    Outcome {
        answer: Err(why),
        left: Both {
            on_chip: Totals::zeros(),
            external: Totals::zeros(),
        },
    }
}

// Both stores, or, where either is refused, neither: what each setup would be refused with is found out before the first word is written.
pub fn set_up_both(
    on_size: Size,
    on_max_allocs: u32,
    on_bin_indices: &mut [u32; 256],
    on_used_bins: &mut [u8; 32],
    on_nodes: &mut [u32],
    on_free_nodes: &mut [u32],
    on_bytes: &[u8],
    ex_size: Size,
    ex_max_allocs: u32,
    ex_bin_indices: &mut [u32; 256],
    ex_used_bins: &mut [u8; 32],
    ex_nodes: &mut [u32],
    ex_free_nodes: &mut [u32],
    ex_bytes: &[u8],
) -> Outcome<(), Both<Totals>>
    ensures { (on ex : Totals) → PacketSetupBoth edition32 on_size.0 on_max_allocs ex_size.0 ex_max_allocs
        (two (store_of on on_bin_indices.old on_used_bins.old on_nodes.old
        on_free_nodes.old on_bytes.now)
        (store_of ex ex_bin_indices.old ex_used_bins.old ex_nodes.old
        ex_free_nodes.old ex_bytes.now))
        (two (store_of result.left.on_chip on_bin_indices.new on_used_bins.new on_nodes.new
        on_free_nodes.new on_bytes.now)
        (store_of result.left.external ex_bin_indices.new ex_used_bins.new ex_nodes.new
        ex_free_nodes.new ex_bytes.now))
        (done_says result.answer) }
{
    if packet_store::too_short(on_size.0, on_bytes, ex_size.0, ex_bytes) {
        return neither(PacketRefusal::StoreTooShort);
    }
    match records::gate::test(on_max_allocs, on_nodes, on_free_nodes, Refusal::BadCount) {
        Err(why) => neither(PacketRefusal::OfStore(why)),
        Ok(()) => match records::gate::test(
            ex_max_allocs,
            ex_nodes,
            ex_free_nodes,
            Refusal::BadCount,
        ) {
            Err(why) => neither(PacketRefusal::OfStore(why)),
            Ok(()) => {
                let on_started = starting::with_max_allocs(
                    on_size,
                    on_max_allocs,
                    on_bin_indices,
                    on_used_bins,
                    on_nodes,
                    on_free_nodes,
                );
                let ex_started = starting::with_max_allocs(
                    ex_size,
                    ex_max_allocs,
                    ex_bin_indices,
                    ex_used_bins,
                    ex_nodes,
                    ex_free_nodes,
                );
                Outcome {
                    answer: Ok(()),
                    left: Both {
                        on_chip: on_started.totals,
                        external: ex_started.totals,
                    },
                }
            }
        },
    }
}
