// Take and hand back with the whole head lent: its scalars too stand in an array of the caller's, and only the answer comes out.
//
// Where a program calls from several places, so that the compiler leaves the calls out of line, this is the quickest way in: scalars that go in and out by
// value are written word by word and read back many at once, which the processor has to wait for (docs/SPEED.md). Each call makes the one in place of the
// same name, which does the work. `Totals::in_array` makes the array of what a setup gives, `Totals::of_array` reads it for the questions and the audit.
#![tactic(auto)]

ghost use Rattle.ledger.specs.Calls.{Take, HandBack};
ghost use Rattle.tables.specs.Calls.{edition32};
ghost use Rattle.tables.specs.Promise.{Promise};
ghost use Rattle.answers.specs.Asked.{request_of, token_of};
ghost use Rattle.answers.specs.Answers.{take_says, back_says};
ghost use Rattle.records.specs.InWords.{of_array, words_of};

use answers::{Allocation, Refusal};
use records::totals::Totals;
use small_float::Size;

// A span of this size, or why not.
pub fn allocate(
    scalars: &mut [u32; Totals::SCALARS],
    size: Size,
    bin_indices: &mut [u32; 256],
    used_bins: &mut [u8; 32],
    nodes: &mut [u32],
    free_nodes: &[u32],
) -> Result<Allocation, Refusal>
    ensures { Promise edition32 (Take (request_of size))
        (words_of (of_array scalars.old) bin_indices.old used_bins.old nodes.old free_nodes.now)
        (words_of (of_array scalars.new) bin_indices.new used_bins.new nodes.new free_nodes.now)
        (take_says result) }
{
    let t = Totals::of_array(scalars);
    let taken = taking::allocate(t, size, bin_indices, used_bins, nodes, free_nodes);
    let after_take = taken.totals;
    after_take.put_back(scalars);
    taken.answer
}

// A span goes back, or why not. It merges with the free regions beside it and keeps its record.
pub fn free(
    scalars: &mut [u32; Totals::SCALARS],
    span: Allocation,
    bin_indices: &mut [u32; 256],
    used_bins: &mut [u8; 32],
    nodes: &mut [u32],
    free_nodes: &mut [u32],
) -> Result<(), Refusal>
    ensures { Promise edition32 (HandBack (token_of span))
        (words_of (of_array scalars.old) bin_indices.old used_bins.old nodes.old free_nodes.old)
        (words_of (of_array scalars.new) bin_indices.new used_bins.new nodes.new free_nodes.new)
        (back_says result) }
{
    let t = Totals::of_array(scalars);
    let returned = giving::free(t, span, bin_indices, used_bins, nodes, free_nodes);
    let after_return = returned.totals;
    after_return.put_back(scalars);
    returned.answer
}
