// The questions: `allocation_size`, `storage_report` and `storage_report_full` of the Rust, and how full the store is, in place. Nothing is written.
//
// Each is lent all that the other calls are lent, to be read.
#![tactic(auto)]

ghost use Rattle.ledger.specs.Calls.{SizeOf, Report, FullReport, Fill};
ghost use Rattle.answers.specs.Asked.{token_of};
ghost use Rattle.records.specs.InWords.{words_of};
ghost use Rattle.answers.specs.Answers.{size_says, report_says, full_says, fill_says, FiguresOfZero, AllPlaces};
ghost use Rattle.asking.specs.Answers.{Asked};

use answers::{Allocation, FullAnswer, Refusal, StorageReport};
use records::nodes;
use records::nodes::Field;
use records::totals::Totals;
use small_float::Size;

mod fullness;
mod report;

// The length of a live span.
pub fn allocation_size(
    t: Totals,
    span: Allocation,
    bin_indices: &[u32; 256],
    used_bins: &[u8; 32],
    nodes: &[u32],
    free_nodes: &[u32],
) -> Result<Size, Refusal>
    ensures { Asked (size_says result) (SizeOf (token_of span))
        (words_of t bin_indices.now used_bins.now nodes.now free_nodes.now) }
{
    let handle = span.metadata;
    records::gate::test(t.max_allocs, nodes, free_nodes, Refusal::Unsound)?;
    if !records::live::is_live(nodes, t.max_allocs, handle) {
        return Err(Refusal::NotLive);
    }
    if nodes::word(nodes, handle, Field::DataOffset) != span.offset {
        return Err(Refusal::StartsElsewhere);
    }
    Ok(Size(nodes::word(nodes, handle, Field::DataSize)))
}

// The sum of the free lengths, and the value of the highest class that holds a region; 0 and 0 with one spare record.
pub fn storage_report(
    t: Totals,
    bin_indices: &[u32; 256],
    used_bins: &[u8; 32],
    nodes: &[u32],
    free_nodes: &[u32],
) -> Result<StorageReport, Refusal>
    ensures { Asked (report_says result) Report
        (words_of t bin_indices.now used_bins.now nodes.now free_nodes.now) }
{
    records::gate::test(t.max_allocs, nodes, free_nodes, Refusal::Unsound)?;
    report::report(t, used_bins)
}

// The value of each class, and how many free regions it holds.
pub fn storage_report_full(
    t: Totals,
    bin_indices: &[u32; 256],
    used_bins: &[u8; 32],
    nodes: &[u32],
    free_nodes: &[u32],
) -> FullAnswer
    ensures exact { Asked (full_says result) FullReport
        (words_of t bin_indices.now used_bins.now nodes.now free_nodes.now) }
    ensures figures { FiguresOfZero result }
    ensures places { AllPlaces result }
{
    match records::gate::test(t.max_allocs, nodes, free_nodes, Refusal::Unsound) {
        Err(why) => full_report::refuse(why),
        Ok(()) => full_report::count(t, bin_indices, nodes),
    }
}

// The live lengths summed, and how many of 256 equal parts of the store they fill.
pub fn fill(
    t: Totals,
    bin_indices: &[u32; 256],
    used_bins: &[u8; 32],
    nodes: &[u32],
    free_nodes: &[u32],
) -> Result<answers::Fill, Refusal>
    ensures { Asked (fill_says result) Fill
        (words_of t bin_indices.now used_bins.now nodes.now free_nodes.now) }
{
    records::gate::test(t.max_allocs, nodes, free_nodes, Refusal::Unsound)?;
    fullness::fullness(t)
}
