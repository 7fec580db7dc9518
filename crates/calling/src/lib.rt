// A call that comes as a value, made in place: the one function for programs and tests that do not know beforehand which call it is.
#![tactic(auto)]

ghost use Rattle.tables.specs.Calls.{edition32};
ghost use Rattle.records.specs.InWords.{words_of};
ghost use Rattle.calls.specs.Values.{says};
ghost use Rattle.calls.specs.declared.Call.TheVariants as call;
ghost use Rattle.calling.specs.Makes.{Makes};

use answers::Allocation;
use calls::Call;
use records::answered::Answered;
use records::totals::Totals;
use small_float::Size;

fn take(
    size: Size,
    t: Totals,
    bin_indices: &mut [u32; 256],
    used_bins: &mut [u8; 32],
    nodes: &mut [u32],
    free_nodes: &[u32],
) -> Answered<Option<Allocation>>
    ensures { Makes edition32 (call.Take size)
        (words_of t bin_indices.old used_bins.old nodes.old free_nodes.now)
        (words_of result.totals bin_indices.new used_bins.new nodes.new free_nodes.now)
        (says result.answer) }
{
    let taken = taking::allocate(t, size, bin_indices, used_bins, nodes, free_nodes);
    Answered {
        answer: calls::of_take(taken.answer),
        totals: taken.totals,
    }
}

fn hand_back(
    span: Allocation,
    t: Totals,
    bin_indices: &mut [u32; 256],
    used_bins: &mut [u8; 32],
    nodes: &mut [u32],
    free_nodes: &mut [u32],
) -> Answered<Option<Allocation>>
    ensures { Makes edition32 (call.HandBack span)
        (words_of t bin_indices.old used_bins.old nodes.old free_nodes.old)
        (words_of result.totals bin_indices.new used_bins.new nodes.new free_nodes.new)
        (says result.answer) }
{
    let returned = giving::free(t, span, bin_indices, used_bins, nodes, free_nodes);
    Answered {
        answer: calls::of_done(returned.answer),
        totals: returned.totals,
    }
}

// Whatever totals were there: a setup takes none. Refused, it gives totals of zeros, and whoever goes on with them has no store.
fn set_up(
    size: Size,
    count: u32,
    bin_indices: &mut [u32; 256],
    used_bins: &mut [u8; 32],
    nodes: &mut [u32],
    free_nodes: &mut [u32],
) -> Answered<Option<Allocation>>
    ensures { (t : Totals) → Makes edition32 (call.SetUp size count)
        (words_of t bin_indices.old used_bins.old nodes.old free_nodes.old)
        (words_of result.totals bin_indices.new used_bins.new nodes.new free_nodes.new)
        (says result.answer) }
{
    let started = starting::with_max_allocs(size, count, bin_indices, used_bins, nodes, free_nodes);
    Answered {
        answer: calls::of_done(started.answer),
        totals: started.totals,
    }
}

fn reset(
    t: Totals,
    bin_indices: &mut [u32; 256],
    used_bins: &mut [u8; 32],
    nodes: &mut [u32],
    free_nodes: &mut [u32],
) -> Answered<Option<Allocation>>
    ensures { Makes edition32 call.Reset
        (words_of t bin_indices.old used_bins.old nodes.old free_nodes.old)
        (words_of result.totals bin_indices.new used_bins.new nodes.new free_nodes.new)
        (says result.answer) }
{
    let started = starting::reset(t, bin_indices, used_bins, nodes, free_nodes);
    Answered {
        answer: calls::of_done(started.answer),
        totals: started.totals,
    }
}

// The call made, and its answer.
pub fn make(
    call: Call,
    t: Totals,
    bin_indices: &mut [u32; 256],
    used_bins: &mut [u8; 32],
    nodes: &mut [u32],
    free_nodes: &mut [u32],
) -> Answered<Option<Allocation>>
    ensures { Makes edition32 call
        (words_of t bin_indices.old used_bins.old nodes.old free_nodes.old)
        (words_of result.totals bin_indices.new used_bins.new nodes.new free_nodes.new)
        (says result.answer) }
{
    match call {
        Call::Take(size) => take(size, t, bin_indices, used_bins, nodes, free_nodes),
        Call::HandBack(span) => hand_back(span, t, bin_indices, used_bins, nodes, free_nodes),
        Call::SetUp(size, count) => {
            set_up(size, count, bin_indices, used_bins, nodes, free_nodes)
        }
        Call::Reset => reset(t, bin_indices, used_bins, nodes, free_nodes),
    }
}
