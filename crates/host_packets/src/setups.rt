// Setup of one store, and of both.
ghost use Rattle.tables.specs.Calls.{edition32};
ghost use Rattle.packets.specs.Stores.{two};
ghost use Rattle.packets.specs.Answers.{refusal_in};
ghost use Rattle.packets.specs.Promise.{PacketSetupBoth};
ghost use Rattle.host_values.specs.Tells.{Tells};
ghost use Rattle.host_packets.specs.Kept.{store_in, SetUpAnywhere};

use records::totals::Totals;
use small_float::Size;

// A store of this size and with this many records, beside the other one, of which the scalars and the bytes are asked for. It is the same for either store,
// and says so: whichever it is, and whatever the rest of the other one. Refused, the scalars are zeros, as of no store.
#[unsafe(no_mangle)]
pub extern "C" fn ds_packet_set_up(
    size: u32,
    count: u32,
    scalars: &mut [u32; Totals::SCALARS],
    bins: &mut [u32; 256],
    leaves: &mut [u8; 32],
    nodes: &mut [u32],
    pile: &mut [u32],
    bytes: &[u8],
    beside: &[u32; Totals::SCALARS],
    bytes_beside: &[u8],
) -> u32
    ensures { Tells refusal_in (SetUpAnywhere edition32 size count
        (store_in scalars.old bins.old leaves.old nodes.old pile.old bytes.now)
        (store_in scalars.new bins.new leaves.new nodes.new pile.new bytes.now)
        beside.now bytes_beside.now) result }
{
    let other = Totals::of_array(beside);
    let started = packet_starting::set_up(
        Size(size),
        count,
        bins,
        leaves,
        nodes,
        pile,
        bytes,
        other,
        bytes_beside,
    );
    host_values::keep(started.left, scalars);
    packets::number(started.answer)
}

// Both stores, or neither.
#[unsafe(no_mangle)]
pub extern "C" fn ds_packet_set_up_both(
    on_size: u32,
    on_count: u32,
    on_scalars: &mut [u32; Totals::SCALARS],
    on_bins: &mut [u32; 256],
    on_leaves: &mut [u8; 32],
    on_nodes: &mut [u32],
    on_pile: &mut [u32],
    on_bytes: &[u8],
    ex_size: u32,
    ex_count: u32,
    ex_scalars: &mut [u32; Totals::SCALARS],
    ex_bins: &mut [u32; 256],
    ex_leaves: &mut [u8; 32],
    ex_nodes: &mut [u32],
    ex_pile: &mut [u32],
    ex_bytes: &[u8],
) -> u32
    ensures { Tells refusal_in (PacketSetupBoth edition32 on_size on_count ex_size ex_count
        (two (store_in on_scalars.old on_bins.old on_leaves.old
        on_nodes.old on_pile.old on_bytes.now)
        (store_in ex_scalars.old ex_bins.old ex_leaves.old
        ex_nodes.old ex_pile.old ex_bytes.now))
        (two (store_in on_scalars.new on_bins.new on_leaves.new
        on_nodes.new on_pile.new on_bytes.now)
        (store_in ex_scalars.new ex_bins.new ex_leaves.new
        ex_nodes.new ex_pile.new ex_bytes.now))) result }
{
    let started = packet_starting::set_up_both(
        Size(on_size),
        on_count,
        on_bins,
        on_leaves,
        on_nodes,
        on_pile,
        on_bytes,
        Size(ex_size),
        ex_count,
        ex_bins,
        ex_leaves,
        ex_nodes,
        ex_pile,
        ex_bytes,
    );
    host_values::keep(started.left.on_chip, on_scalars);
    host_values::keep(started.left.external, ex_scalars);
    packets::number(started.answer)
}
