// Take and hand back, with the head by value.
ghost use Rattle.ledger.specs.Figures.{refusal_of};
ghost use Rattle.ledger.specs.Calls.{takes, gives_back};
ghost use Rattle.tables.specs.Calls.{edition32};
ghost use Rattle.tables.specs.Promise.{Promise};
ghost use Rattle.host_values.specs.Kept.{words_in};
ghost use Rattle.host_values.specs.Tells.{Tells};
ghost use Rattle.host_values.specs.Told.{told_by};

use crate::heads;
use answers::{Allocation, Handle};
use host_values::Told;
use records::totals::Totals;
use small_float::Size;

// A span of this size: offset and record.
pub fn ds_by_value_take(
    scalars: &mut [u32; Totals::SCALARS],
    size: u32,
    bins: &mut [u32; 256],
    leaves: &mut [u8; 32],
    nodes: &mut [u32],
    pile: &[u32],
) -> Told
    ensures { Tells (told_by (takes size)) (Promise edition32 (takes size)
        (words_in scalars.old bins.old leaves.old nodes.old pile.now)
        (words_in scalars.new bins.new leaves.new nodes.new pile.now)) result }
{
    let found = heads::of_arrays(scalars, bins, leaves);
    let taken = found.allocate(Size(size), nodes, pile);
    let answer = taken.answer;
    let head = taken.head;
    heads::keep(head, scalars, bins, leaves);
    host_values::of_answer(answer)
}

// A span goes back.
pub fn ds_by_value_give(
    scalars: &mut [u32; Totals::SCALARS],
    offset: u32,
    handle: u32,
    bins: &mut [u32; 256],
    leaves: &mut [u8; 32],
    nodes: &mut [u32],
    pile: &mut [u32],
) -> u32
    ensures { Tells refusal_of (Promise edition32 (gives_back offset handle)
        (words_in scalars.old bins.old leaves.old nodes.old pile.old)
        (words_in scalars.new bins.new leaves.new nodes.new pile.new)) result }
{
    let found = heads::of_arrays(scalars, bins, leaves);
    let span = Allocation {
        offset,
        metadata: Handle(handle),
    };
    let returned = found.free(span, nodes, pile);
    let answer = returned.answer;
    let head = returned.head;
    heads::keep(head, scalars, bins, leaves);
    answers::number(answer)
}
