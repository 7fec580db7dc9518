// Setup and reset, in place.
ghost use Rattle.ledger.specs.Figures.{refusal_of};
ghost use Rattle.ledger.specs.Calls.{Reset};
ghost use Rattle.tables.specs.Setup.{lent_of};
ghost use Rattle.tables.specs.Calls.{edition32};
ghost use Rattle.tables.specs.Promise.{Promise, SetupPromise};
ghost use Rattle.host_values.specs.Kept.{words_in};
ghost use Rattle.host_values.specs.Tells.{Tells};

use records::totals::Totals;
use small_float::Size;

// A store of this size, all of it free, with this many records. Refused, the scalars are zeros, and all else stays.
#[unsafe(no_mangle)]
pub extern "C" fn ds_set_up(
    scalars: &mut [u32; Totals::SCALARS],
    size: u32,
    count: u32,
    bins: &mut [u32; 256],
    leaves: &mut [u8; 32],
    nodes: &mut [u32],
    pile: &mut [u32],
) -> u32
    ensures { Tells refusal_of (SetupPromise edition32 size count
        (lent_of bins.old leaves.old nodes.old pile.old)
        (words_in scalars.new bins.new leaves.new nodes.new pile.new)) result }
{
    let started = starting::with_max_allocs(Size(size), count, bins, leaves, nodes, pile);
    let totals = started.totals;
    let answer = started.answer;
    host_values::keep(totals, scalars);
    answers::number(answer)
}

// The same with the count of records that the Rust takes by default.
#[unsafe(no_mangle)]
pub extern "C" fn ds_new(
    scalars: &mut [u32; Totals::SCALARS],
    size: u32,
    bins: &mut [u32; 256],
    leaves: &mut [u8; 32],
    nodes: &mut [u32],
    pile: &mut [u32],
) -> u32
    ensures { Tells refusal_of (SetupPromise edition32 size 131072
        (lent_of bins.old leaves.old nodes.old pile.old)
        (words_in scalars.new bins.new leaves.new nodes.new pile.new)) result }
{
    let started = starting::new(Size(size), bins, leaves, nodes, pile);
    let totals = started.totals;
    let answer = started.answer;
    host_values::keep(totals, scalars);
    answers::number(answer)
}

// All spans are forgotten: the store is as after setup.
#[unsafe(no_mangle)]
pub extern "C" fn ds_reset(
    scalars: &mut [u32; Totals::SCALARS],
    bins: &mut [u32; 256],
    leaves: &mut [u8; 32],
    nodes: &mut [u32],
    pile: &mut [u32],
) -> u32
    ensures { Tells refusal_of (Promise edition32 Reset
        (words_in scalars.old bins.old leaves.old nodes.old pile.old)
        (words_in scalars.new bins.new leaves.new nodes.new pile.new)) result }
{
    let t = Totals::of_array(scalars);
    let started = starting::reset(t, bins, leaves, nodes, pile);
    let totals = started.totals;
    let answer = started.answer;
    host_values::keep(totals, scalars);
    answers::number(answer)
}
