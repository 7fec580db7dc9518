// Read: a part that is lent does not cross the boundary, so its front is copied out.
ghost use Rattle.std.specs.Prelude.{◌≡◌, length};
ghost use Rattle.ledger.specs.Calls.{span_of};
ghost use Rattle.packets.specs.Stores.{two};
ghost use Rattle.packets.specs.Calls.{Read};
ghost use Rattle.host_values.specs.Tells.{Tells};
ghost use Rattle.host_packets.specs.Kept.{store_in};
ghost use Rattle.host_packets.specs.Flat.{store_named, ReadInto, fronted};
ghost use Rattle.tables.specs.Calls.{edition32};

use crate::values;
use records::totals::Totals;

// As much of the part's front as there is room for; what lies behind it stays.
fn copy_front(part: &[u8], out: &mut [u8])
    ensures { out.new ≡ fronted part.now out.old }
{
    let many = part.len().min(out.len());
    parts::fill_front(out, &part[..many]);
}

fn shown(part: &[u8], out: &mut [u8]) -> usize
    ensures { (result ≡ length part.now) × (out.new ≡ fronted part.now out.old) }
{
    copy_front(part, out);
    part.len()
}

// The packet's whole length, of which as much is copied as `out` has room for; 0 on a refusal, which `ds_packet_length` tells from an empty packet.
#[unsafe(no_mangle)]
pub extern "C" fn ds_packet_read<'a>(
    store: u32,
    offset: u32,
    handle: u32,
    out: &mut [u8],
    on_scalars: &[u32; Totals::SCALARS],
    on_bins: &[u32; 256],
    on_leaves: &[u8; 32],
    on_nodes: &[u32],
    on_pile: &[u32],
    on_bytes: &'a [u8],
    ex_scalars: &[u32; Totals::SCALARS],
    ex_bins: &[u32; 256],
    ex_leaves: &[u8; 32],
    ex_nodes: &[u32],
    ex_pile: &[u32],
    ex_bytes: &'a [u8],
) -> usize
    ensures { Tells length (ReadInto edition32 (Read (store_named store) (span_of offset handle))
        (two (store_in on_scalars.now on_bins.now on_leaves.now
        on_nodes.now on_pile.now on_bytes.now)
        (store_in ex_scalars.now ex_bins.now ex_leaves.now
        ex_nodes.now ex_pile.now ex_bytes.now))
        out.old out.new) result }
{
    let packet = values::packet_of(store, offset, handle);
    let on_chip = Totals::of_array(on_scalars);
    let external = Totals::of_array(ex_scalars);
    let part = packet_asking::read(
        packet, on_chip, on_bins, on_leaves, on_nodes, on_pile, on_bytes, external, ex_bins,
        ex_leaves, ex_nodes, ex_pile, ex_bytes,
    );
    shown(part, out)
}
