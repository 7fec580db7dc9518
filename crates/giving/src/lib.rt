// Hand back: `free` of the Rust, in place.
#![tactic(auto)]

ghost use Rattle.std.specs.Prelude.{◌≡◌, ◌≤◌, [], length};
ghost use Rattle.ledger.specs.Ledger.{done};
ghost use Rattle.ledger.specs.Calls.{HandBack};
ghost use Rattle.tables.specs.Calls.{edition32};
ghost use Rattle.tables.specs.HandBack.{merging};
ghost use Rattle.tables.specs.Guards.{MergeGuards};
ghost use Rattle.tables.specs.Promise.{Promise};
ghost use Rattle.answers.specs.Asked.{token_of};
ghost use Rattle.records.specs.InWords.{words_of, bound, HasRoom, outcome_of};
ghost use Rattle.answers.specs.Answers.{back_says};
ghost use Rattle.giving.specs.Answers.{handed_back};
ghost use Rattle.back_plan.specs.Plan.{merged_in};

use answers::{Allocation, Refusal};
use back_plan::{Merged, Neighbor, Planned};
use records::answered::Answered;
use records::totals::Totals;

// The plan carried out. All its writes are here: without them the hand-back would be done in name alone.
fn carry_out(
    t: Totals,
    prev: Neighbor,
    next: Neighbor,
    m: Merged,
    bin_indices: &mut [u32; 256],
    used_bins: &mut [u8; 32],
    nodes: &mut [u32],
    free_nodes: &mut [u32],
) -> Answered<()>
    requires has_room { HasRoom t.max_allocs nodes.old }
    requires max_allocs_in_bounds { t.max_allocs ≤ length free_nodes.old }
    requires merge_guards { MergeGuards (words_of t [] [] nodes.old []) m.record.0 prev.link.0 next.link.0 prev.free next.free (merged_in m) }
    ensures answer_value { back_says result.answer ≡ done }
    ensures free_nodes_after { words_of result.totals bin_indices.new used_bins.new nodes.new free_nodes.new
        ≡ merging (bound t.max_allocs)
        (words_of t bin_indices.old used_bins.old nodes.old free_nodes.old)
        m.record.0 prev.link.0 next.link.0 prev.free next.free (merged_in m) }
{
    let totals = back_commit::merge(t, prev, next, m, bin_indices, used_bins, nodes, free_nodes);
    Answered {
        answer: Ok(()),
        totals: totals,
    }
}

// Behind the gate.
fn give_back(
    t: Totals,
    span: Allocation,
    bin_indices: &mut [u32; 256],
    used_bins: &mut [u8; 32],
    nodes: &mut [u32],
    free_nodes: &mut [u32],
) -> Answered<()>
    requires has_room { HasRoom t.max_allocs nodes.old }
    requires max_allocs_in_bounds { t.max_allocs ≤ length free_nodes.old }
    ensures { outcome_of (λ _. done) result bin_indices.new used_bins.new nodes.new free_nodes.new
        ≡ handed_back (token_of span) (words_of t bin_indices.old used_bins.old nodes.old free_nodes.old) }
{
    match back_plan::plan(t, span, nodes) {
        Err(why) => Answered {
            answer: Err(why),
            totals: t,
        },
        Ok(Planned { prev, next, merged }) => carry_out(
            t,
            prev,
            next,
            merged,
            bin_indices,
            used_bins,
            nodes,
            free_nodes,
        ),
    }
}

// A span goes back, or why not. It merges with the free regions beside it and keeps its record.
pub fn free(
    t: Totals,
    span: Allocation,
    bin_indices: &mut [u32; 256],
    used_bins: &mut [u8; 32],
    nodes: &mut [u32],
    free_nodes: &mut [u32],
) -> Answered<()>
    ensures { Promise edition32 (HandBack (token_of span))
        (words_of t bin_indices.old used_bins.old nodes.old free_nodes.old)
        (words_of result.totals bin_indices.new used_bins.new nodes.new free_nodes.new)
        (back_says result.answer) }
{
    match records::gate::test(t.max_allocs, nodes, free_nodes, Refusal::Unsound) {
        Err(why) => Answered {
            answer: Err(why),
            totals: t,
        },
        Ok(()) => give_back(t, span, bin_indices, used_bins, nodes, free_nodes),
    }
}
