// Setup and reset: `with_max_allocs`, `new` and `reset` of the Rust, in place.
#![tactic(auto)]

ghost use Rattle.std.specs.Prelude.{◌≡◌, List, ℕ, ◌≤◌, length};
ghost use Rattle.ledger.specs.Ledger.{done, refused};
ghost use Rattle.ledger.specs.Calls.{Reset};
ghost use Rattle.tables.specs.Steps.{insert};
ghost use Rattle.tables.specs.Setup.{fresh, lent_of, zeros};
ghost use Rattle.tables.specs.Calls.{edition32};
ghost use Rattle.tables.specs.Promise.{Promise, SetupPromise};
ghost use Rattle.answers.specs.Refusals.{number_of};
ghost use Rattle.records.specs.InWords.{words_of, bound, HasRoom, outcome_of};
ghost use Rattle.answers.specs.Answers.{start_says};

use answers::{Handle, Refusal};
use records::answered::Answered;
use records::nodes::NONE;
use records::totals::Totals;
use small_float::Size;

pub mod lengths;

// The count of records that `new` sets up with: 128 * 1024.
pub const DEFAULT_MAX_ALLOCS: u32 = 131072;

// The whole size is one free region, under record 0: nothing is cut before it is asked for.
fn one_region(
    t: Totals,
    size: Size,
    bin_indices: &mut [u32; 256],
    used_bins: &mut [u8; 32],
    nodes: &mut [u32],
) -> Totals
    requires bound { 1 ≤ t.max_allocs }
    requires has_room { HasRoom t.max_allocs nodes.old }
    ensures { (pile : List ℕ) →
        words_of result bin_indices.new used_bins.new nodes.new pile
        ≡ insert (bound t.max_allocs)
        (words_of t bin_indices.old used_bins.old nodes.old pile)
        size.0 0 0 edition32.none edition32.none }
{
    let first = Handle(0);
    let none = Handle(NONE);
    bins::insert::insert_node_into_bin(bin_indices, used_bins, nodes, t, size, 0, first, none, none)
}

// Behind the gate: every record spare but record 0, which is one free region of the whole size.
fn start_afresh(
    size: u32,
    max_allocs: u32,
    bin_indices: &mut [u32; 256],
    used_bins: &mut [u8; 32],
    nodes: &mut [u32],
    free_nodes: &mut [u32],
) -> Totals
    requires le_max_allocs { 2 ≤ max_allocs }
    requires has_room { HasRoom max_allocs nodes.old }
    requires max_allocs_in_bounds { max_allocs ≤ length free_nodes.old }
    ensures { words_of result bin_indices.new used_bins.new nodes.new free_nodes.new
        ≡ fresh edition32 size max_allocs nodes.old free_nodes.old }
{
    clearing::clear_bin_indices(bin_indices, NONE);
    clearing::clear_used_bins(used_bins);
    clearing::mark_not_live(nodes, max_allocs);
    clearing::pile_up(free_nodes, max_allocs);
    let blank = Totals::blank(size, max_allocs);
    let t = records::pile::pop(blank);
    one_region(t, Size(size), bin_indices, used_bins, nodes)
}

// A refused setup gives totals of zeros, whose count of 0 makes every later call on them a refusal. It changes nothing that it was lent: the two arrays
// are handed on to here so that this is said where it could be broken.
fn leave_all(why: Refusal, bin_indices: &mut [u32; 256], used_bins: &mut [u8; 32]) -> Answered<()>
    ensures { (nodes pile : List ℕ) → outcome_of (λ _. done) result bin_indices.new used_bins.new nodes pile
        ≡ (refused (number_of why), zeros (lent_of bin_indices.old used_bins.old nodes pile)) }
{
    let zeros = Totals::zeros();
    Answered {
        answer: Err(why),
        totals: zeros,
    }
}

// The units of a size: a 32-bit number, as its type says.
fn units_of(size: Size) -> u32
    ensures { result ≡ size.0 }
{
    size.0
}

// A store of this size, all of it free, with this many records.
pub fn with_max_allocs(
    size: Size,
    max_allocs: u32,
    bin_indices: &mut [u32; 256],
    used_bins: &mut [u8; 32],
    nodes: &mut [u32],
    free_nodes: &mut [u32],
) -> Answered<()>
    ensures { SetupPromise edition32 size.0 max_allocs
        (lent_of bin_indices.old used_bins.old nodes.old free_nodes.old)
        (words_of result.totals bin_indices.new used_bins.new nodes.new free_nodes.new)
        (start_says result.answer) }
{
    let units = units_of(size);
    match records::gate::test(max_allocs, nodes, free_nodes, Refusal::BadCount) {
        Err(why) => leave_all(why, bin_indices, used_bins),
        Ok(()) => Answered {
            answer: Ok(()),
            totals: start_afresh(units, max_allocs, bin_indices, used_bins, nodes, free_nodes),
        },
    }
}

// The same with the count of records that the Rust takes by default.
pub fn new(
    size: Size,
    bin_indices: &mut [u32; 256],
    used_bins: &mut [u8; 32],
    nodes: &mut [u32],
    free_nodes: &mut [u32],
) -> Answered<()>
    ensures { SetupPromise edition32 size.0 131072
        (lent_of bin_indices.old used_bins.old nodes.old free_nodes.old)
        (words_of result.totals bin_indices.new used_bins.new nodes.new free_nodes.new)
        (start_says result.answer) }
{
    with_max_allocs(
        size,
        DEFAULT_MAX_ALLOCS,
        bin_indices,
        used_bins,
        nodes,
        free_nodes,
    )
}

// All spans are forgotten: the store is as after setup, whatever the words held.
pub fn reset(
    t: Totals,
    bin_indices: &mut [u32; 256],
    used_bins: &mut [u8; 32],
    nodes: &mut [u32],
    free_nodes: &mut [u32],
) -> Answered<()>
    ensures { Promise edition32 Reset
        (words_of t bin_indices.old used_bins.old nodes.old free_nodes.old)
        (words_of result.totals bin_indices.new used_bins.new nodes.new free_nodes.new)
        (start_says result.answer) }
{
    match records::gate::test(t.max_allocs, nodes, free_nodes, Refusal::Unsound) {
        Err(why) => Answered {
            answer: Err(why),
            totals: t,
        },
        Ok(()) => Answered {
            answer: Ok(()),
            totals: start_afresh(
                t.size,
                t.max_allocs,
                bin_indices,
                used_bins,
                nodes,
                free_nodes,
            ),
        },
    }
}
