// Take a packet, in place: on-chip first and, on 3 or 4 only, external.
#![tactic(auto)]

ghost use Rattle.std.specs.Prelude.{◌≡◌, ◌≤◌, length};
ghost use Rattle.answers.specs.Asked.{request_of};
ghost use Rattle.answers.specs.Refusals.{number_of};
ghost use Rattle.answers.specs.Answers.{take_says};
ghost use Rattle.tables.specs.Calls.{edition32};
ghost use Rattle.packets.specs.Stores.{Kept, two, store_of};
ghost use Rattle.packets.specs.OneStore.{take_in};
ghost use Rattle.packets.specs.Calls.{Take, packet, goes_on, from_external, externally, after_first};
ghost use Rattle.packets.specs.Answers.{grant_says};
ghost use Rattle.packets.specs.Promise.{PacketPromise};

use answers::{Allocation, Refusal};
use packets::{Both, Outcome, Packet, PacketRefusal, Store};
use records::totals::Totals;
use small_float::Size;

// A refusal after which the external store is tried.
fn goes_on(why: Refusal) -> bool
    ensures { result ≡ goes_on (number_of why) }
{
    matches!(why, Refusal::NoSpareRecord | Refusal::NoRegion)
}

// What the take on the external store answered is the answer.
fn from_external(answer: Result<Allocation, Refusal>) -> Result<Packet, PacketRefusal>
    ensures { grant_says result ≡ from_external (take_says answer) }
{
    match answer {
        Ok(span) => Ok(Packet {
            store: Store::External,
            span,
        }),
        Err(why) => Err(PacketRefusal::from(why)),
    }
}

// The external store is tried: the layer's answer, and what is left of that store's head.
fn try_external(
    size: Size,
    external: Totals,
    ex_bin_indices: &mut [u32; 256],
    ex_used_bins: &mut [u8; 32],
    ex_nodes: &mut [u32],
    ex_free_nodes: &[u32],
    ex_bytes: &mut [u8],
) -> Outcome<Packet, Totals>
    requires { external.size ≤ length ex_bytes.old }
    ensures { (
      grant_says result.answer,
      (store_of result.left ex_bin_indices.new ex_used_bins.new ex_nodes.new
          ex_free_nodes.now ex_bytes.new),
    )
        ≡ externally (take_in edition32 (request_of size)
        (store_of external ex_bin_indices.old ex_used_bins.old ex_nodes.old
        ex_free_nodes.now ex_bytes.old)) }
{
    let second = packet_store::take(
        external,
        size,
        ex_bin_indices,
        ex_used_bins,
        ex_nodes,
        ex_free_nodes,
        ex_bytes,
    );
    Outcome {
        answer: from_external(second.answer),
        left: second.totals,
    }
}

// By what the on-chip store answered: a grant is the answer, and so is a refusal after which the external store is not tried.
fn after_first(
    first: Result<Allocation, Refusal>,
    size: Size,
    external: Totals,
    ex_bin_indices: &mut [u32; 256],
    ex_used_bins: &mut [u8; 32],
    ex_nodes: &mut [u32],
    ex_free_nodes: &[u32],
    ex_bytes: &mut [u8],
) -> Outcome<Packet, Totals>
    requires { external.size ≤ length ex_bytes.old }
    ensures { (left : Kept) → (
      grant_says result.answer,
      two left (store_of result.left ex_bin_indices.new ex_used_bins.new ex_nodes.new
          ex_free_nodes.now ex_bytes.new),
    )
        ≡ after_first (take_says first) left (store_of external ex_bin_indices.old ex_used_bins.old ex_nodes.old
        ex_free_nodes.now ex_bytes.old)
        (take_in edition32 (request_of size) (store_of external ex_bin_indices.old ex_used_bins.old ex_nodes.old
        ex_free_nodes.now ex_bytes.old)) }
{
    match first {
        Ok(span) => Outcome {
            answer: Ok(Packet {
                store: Store::OnChip,
                span,
            }),
            left: external,
        },
        Err(why) => {
            if goes_on(why) {
                return try_external(
                    size,
                    external,
                    ex_bin_indices,
                    ex_used_bins,
                    ex_nodes,
                    ex_free_nodes,
                    ex_bytes,
                );
            }
            Outcome {
                answer: Err(PacketRefusal::from(why)),
                left: external,
            }
        }
    }
}

// A packet of this size with every byte of it marked as not heard, or the refusal of the last store tried.
pub fn take(
    size: Size,
    on_chip: Totals,
    on_bin_indices: &mut [u32; 256],
    on_used_bins: &mut [u8; 32],
    on_nodes: &mut [u32],
    on_free_nodes: &[u32],
    on_bytes: &mut [u8],
    external: Totals,
    ex_bin_indices: &mut [u32; 256],
    ex_used_bins: &mut [u8; 32],
    ex_nodes: &mut [u32],
    ex_free_nodes: &[u32],
    ex_bytes: &mut [u8],
) -> Outcome<Packet, Both<Totals>>
    ensures { PacketPromise edition32 (Take (request_of size))
        (two (store_of on_chip on_bin_indices.old on_used_bins.old on_nodes.old
        on_free_nodes.now on_bytes.old)
        (store_of external ex_bin_indices.old ex_used_bins.old ex_nodes.old
        ex_free_nodes.now ex_bytes.old))
        (two (store_of result.left.on_chip on_bin_indices.new on_used_bins.new on_nodes.new
        on_free_nodes.now on_bytes.new)
        (store_of result.left.external ex_bin_indices.new ex_used_bins.new ex_nodes.new
        ex_free_nodes.now ex_bytes.new))
        (grant_says result.answer) }
{
    if packet_store::too_short(on_chip.size, on_bytes, external.size, ex_bytes) {
        return Outcome {
            answer: Err(PacketRefusal::StoreTooShort),
            left: Both { on_chip, external },
        };
    }
    let first = packet_store::take(
        on_chip,
        size,
        on_bin_indices,
        on_used_bins,
        on_nodes,
        on_free_nodes,
        on_bytes,
    );
    let tried = after_first(
        first.answer,
        size,
        external,
        ex_bin_indices,
        ex_used_bins,
        ex_nodes,
        ex_free_nodes,
        ex_bytes,
    );
    Outcome {
        answer: tried.answer,
        left: Both {
            on_chip: first.totals,
            external: tried.left,
        },
    }
}
