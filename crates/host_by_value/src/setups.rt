// Setup and reset, with the head by value.
ghost use Rattle.ledger.specs.Figures.{refusal_of};
ghost use Rattle.ledger.specs.Calls.{Reset};
ghost use Rattle.tables.specs.Setup.{tables_alone};
ghost use Rattle.tables.specs.Calls.{edition32};
ghost use Rattle.tables.specs.Promise.{Promise, SetupPromise};
ghost use Rattle.host_values.specs.Kept.{words_in};
ghost use Rattle.host_values.specs.Tells.{Tells};

use crate::heads;
use offset_allocator::head::Head;
use records::totals::Totals;
use small_float::Size;

// A store of this size, all of it free, with this many records. Refused, the head is one of zeros, its arrays too.
pub fn ds_by_value_set_up(
    scalars: &mut [u32; Totals::SCALARS],
    size: u32,
    count: u32,
    bins: &mut [u32; 256],
    leaves: &mut [u8; 32],
    nodes: &mut [u32],
    pile: &mut [u32],
) -> u32
    ensures { Tells refusal_of (SetupPromise edition32 size count
        (tables_alone nodes.old pile.old)
        (words_in scalars.new bins.new leaves.new nodes.new pile.new)) result }
{
    let started = Head::with_max_allocs(Size(size), count, nodes, pile);
    let answer = started.answer;
    let head = started.head;
    heads::keep(head, scalars, bins, leaves);
    answers::number(answer)
}

// The same with the count of records that the Rust takes by default.
pub fn ds_by_value_new(
    scalars: &mut [u32; Totals::SCALARS],
    size: u32,
    bins: &mut [u32; 256],
    leaves: &mut [u8; 32],
    nodes: &mut [u32],
    pile: &mut [u32],
) -> u32
    ensures { Tells refusal_of (SetupPromise edition32 size 131072
        (tables_alone nodes.old pile.old)
        (words_in scalars.new bins.new leaves.new nodes.new pile.new)) result }
{
    let started = Head::new(Size(size), nodes, pile);
    let answer = started.answer;
    let head = started.head;
    heads::keep(head, scalars, bins, leaves);
    answers::number(answer)
}

// All spans are forgotten: the store is as after setup.
pub fn ds_by_value_reset(
    scalars: &mut [u32; Totals::SCALARS],
    bins: &mut [u32; 256],
    leaves: &mut [u8; 32],
    nodes: &mut [u32],
    pile: &mut [u32],
) -> u32
    ensures { Tells refusal_of (Promise edition32 Reset
        (words_in scalars.old bins.old leaves.old nodes.old pile.old)
        (words_in scalars.new bins.new leaves.new nodes.new pile.new)) result }
{
    let found = heads::of_arrays(scalars, bins, leaves);
    let started = found.reset(nodes, pile);
    let answer = started.answer;
    let head = started.head;
    heads::keep(head, scalars, bins, leaves);
    answers::number(answer)
}
