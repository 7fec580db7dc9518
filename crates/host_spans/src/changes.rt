// Take and hand back, in place.
ghost use Rattle.ledger.specs.Figures.{refusal_of};
ghost use Rattle.ledger.specs.Calls.{takes, gives_back};
ghost use Rattle.tables.specs.Calls.{edition32};
ghost use Rattle.tables.specs.Promise.{Promise};
ghost use Rattle.host_values.specs.Kept.{words_in};
ghost use Rattle.host_values.specs.Tells.{Tells};
ghost use Rattle.host_values.specs.Told.{told_by};

use answers::{Allocation, Handle};
use host_values::Told;
use records::totals::Totals;
use small_float::Size;

// A span of this size: offset and record.
#[unsafe(no_mangle)]
pub extern "C" fn ds_take(
    scalars: &mut [u32; Totals::SCALARS],
    size: u32,
    bins: &mut [u32; 256],
    leaves: &mut [u8; 32],
    nodes: &mut [u32],
    pile: &[u32],
) -> Told
    ensures { Tells (told_by (takes size)) (Promise edition32 (takes size)
        (words_in scalars.old bins.old leaves.old nodes.old pile.now)
        (words_in scalars.new bins.new leaves.new nodes.new pile.now)) result }
{
    let t = Totals::of_array(scalars);
    let taken = taking::allocate(t, Size(size), bins, leaves, nodes, pile);
    let after_take = taken.totals;
    let answer = taken.answer;
    host_values::keep(after_take, scalars);
    host_values::of_answer(answer)
}

// A span goes back.
#[unsafe(no_mangle)]
pub extern "C" fn ds_give(
    scalars: &mut [u32; Totals::SCALARS],
    offset: u32,
    handle: u32,
    bins: &mut [u32; 256],
    leaves: &mut [u8; 32],
    nodes: &mut [u32],
    pile: &mut [u32],
) -> u32
    ensures { Tells refusal_of (Promise edition32 (gives_back offset handle)
        (words_in scalars.old bins.old leaves.old nodes.old pile.old)
        (words_in scalars.new bins.new leaves.new nodes.new pile.new)) result }
{
    let t = Totals::of_array(scalars);
    let span = Allocation {
        offset,
        metadata: Handle(handle),
    };
    let returned = giving::free(t, span, bins, leaves, nodes, pile);
    let after_return = returned.totals;
    let answer = returned.answer;
    host_values::keep(after_return, scalars);
    answers::number(answer)
}
