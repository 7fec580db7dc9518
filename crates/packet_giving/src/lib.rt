// Hand a packet back, in place: its store says whose it is, and no byte changes.
#![tactic(auto)]

ghost use Rattle.answers.specs.Asked.{token_of};
ghost use Rattle.tables.specs.Calls.{edition32};
ghost use Rattle.packets.specs.Stores.{two, store_of};
ghost use Rattle.packets.specs.Calls.{HandBack};
ghost use Rattle.packets.specs.Answers.{done_says};
ghost use Rattle.packets.specs.Promise.{PacketPromise};

use packets::{Both, Outcome, Packet, PacketRefusal, Store};
use records::totals::Totals;

// The packet's span goes back to its store, or why not.
pub fn hand_back(
    packet: Packet,
    on_chip: Totals,
    on_bin_indices: &mut [u32; 256],
    on_used_bins: &mut [u8; 32],
    on_nodes: &mut [u32],
    on_free_nodes: &mut [u32],
    on_bytes: &[u8],
    external: Totals,
    ex_bin_indices: &mut [u32; 256],
    ex_used_bins: &mut [u8; 32],
    ex_nodes: &mut [u32],
    ex_free_nodes: &mut [u32],
    ex_bytes: &[u8],
) -> Outcome<(), Both<Totals>>
    ensures { PacketPromise edition32 (HandBack packet.store (token_of packet.span))
        (two (store_of on_chip on_bin_indices.old on_used_bins.old on_nodes.old
        on_free_nodes.old on_bytes.now)
        (store_of external ex_bin_indices.old ex_used_bins.old ex_nodes.old
        ex_free_nodes.old ex_bytes.now))
        (two (store_of result.left.on_chip on_bin_indices.new on_used_bins.new on_nodes.new
        on_free_nodes.new on_bytes.now)
        (store_of result.left.external ex_bin_indices.new ex_used_bins.new ex_nodes.new
        ex_free_nodes.new ex_bytes.now))
        (done_says result.answer) }
{
    if packet_store::too_short(on_chip.size, on_bytes, external.size, ex_bytes) {
        return Outcome {
            answer: Err(PacketRefusal::StoreTooShort),
            left: Both { on_chip, external },
        };
    }
    let span = packet.span;
    // an arm for each store: one struct of all that a store lends would want a ghost name for each `&mut` in it in every contract
    match packet.store {
        Store::OnChip => {
            let returned = giving::free(
                on_chip,
                span,
                on_bin_indices,
                on_used_bins,
                on_nodes,
                on_free_nodes,
            );
            Outcome {
                answer: packets::of_store(returned.answer),
                left: Both {
                    on_chip: returned.totals,
                    external,
                },
            }
        }
        Store::External => {
            let returned = giving::free(
                external,
                span,
                ex_bin_indices,
                ex_used_bins,
                ex_nodes,
                ex_free_nodes,
            );
            Outcome {
                answer: packets::of_store(returned.answer),
                left: Both {
                    on_chip,
                    external: returned.totals,
                },
            }
        }
    }
}
