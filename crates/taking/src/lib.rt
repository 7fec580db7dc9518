// Take: `allocate` of the Rust, in place.
#![tactic(auto)]

ghost use Rattle.std.specs.Prelude.{◌≡◌, ◌≤◌, length};
ghost use Rattle.ledger.specs.Ledger.{granted, refused};
ghost use Rattle.ledger.specs.Calls.{Take};
ghost use Rattle.tables.specs.Calls.{edition32};
ghost use Rattle.tables.specs.Promise.{Promise};
ghost use Rattle.answers.specs.Refusals.{number_of};
ghost use Rattle.answers.specs.Asked.{request_of};
ghost use Rattle.records.specs.InWords.{words_of, HasRoom};
ghost use Rattle.answers.specs.Answers.{take_says};
ghost use Rattle.taking.specs.Answers.{TakesAsPlanned};

use answers::{Allocation, Refusal};
use records::answered::Answered;
use records::totals::Totals;
use small_float::Size;
use take_plan::{Planned, Region};

fn refuse(why: Refusal, t: Totals) -> Answered<Allocation>
    ensures { (take_says result.answer ≡ refused (number_of why)) × (result.totals ≡ t) }
{
    Answered {
        answer: Err(why),
        totals: t,
    }
}

fn grant(region: Region, t: Totals) -> Answered<Allocation>
    ensures { (take_says result.answer ≡ granted region.offset region.record.0) × (result.totals ≡ t) }
{
    let record = region.record;
    let span = Allocation {
        offset: region.offset,
        metadata: record,
    };
    Answered {
        answer: Ok(span),
        totals: t,
    }
}

// Behind the gate.
fn take(
    t: Totals,
    size: Size,
    bin_indices: &mut [u32; 256],
    used_bins: &mut [u8; 32],
    nodes: &mut [u32],
    free_nodes: &[u32],
) -> Answered<Allocation>
    requires has_room { HasRoom t.max_allocs nodes.old }
    requires max_allocs_in_bounds { t.max_allocs ≤ length free_nodes.now }
    ensures { TakesAsPlanned size.0
        (words_of t bin_indices.old used_bins.old nodes.old free_nodes.now)
        (words_of result.totals bin_indices.new used_bins.new nodes.new free_nodes.now)
        (take_says result.answer) }
{
    match take_plan::plan(t, size, bin_indices, used_bins, nodes, free_nodes) {
        Err(why) => refuse(why, t),
        Ok(Planned::Whole(region)) => {
            let u = take_commit::grant_whole(t, size, region, bin_indices, used_bins, nodes);
            grant(region, u)
        }
        Ok(Planned::Split(region, rest)) => {
            let u = take_commit::grant_part(t, size, region, rest, bin_indices, used_bins, nodes);
            grant(region, u)
        }
    }
}

// A span of this size, or why not.
pub fn allocate(
    t: Totals,
    size: Size,
    bin_indices: &mut [u32; 256],
    used_bins: &mut [u8; 32],
    nodes: &mut [u32],
    free_nodes: &[u32],
) -> Answered<Allocation>
    ensures { Promise edition32 (Take (request_of size))
        (words_of t bin_indices.old used_bins.old nodes.old free_nodes.now)
        (words_of result.totals bin_indices.new used_bins.new nodes.new free_nodes.now)
        (take_says result.answer) }
{
    match records::gate::test(t.max_allocs, nodes, free_nodes, Refusal::Unsound) {
        Err(why) => refuse(why, t),
        Ok(()) => take(t, size, bin_indices, used_bins, nodes, free_nodes),
    }
}
