// The questions and the audit, in place. Nothing is written but what they are to fill: the columns of the full report, the scratch.
ghost use Rattle.ledger.specs.Figures.{refusal_of};
ghost use Rattle.ledger.specs.Calls.{Ask, SizeOf, Report, Fill, span_of, asks_size};
ghost use Rattle.tables.specs.Calls.{edition32};
ghost use Rattle.audit_words.specs.Promise.{AuditPromise};
ghost use Rattle.asking.specs.Answers.{Asked};
ghost use Rattle.host_values.specs.Kept.{words_in};
ghost use Rattle.host_values.specs.Tells.{Tells};
ghost use Rattle.host_values.specs.Told.{told_by, number_of_full, FullTold};

use answers::{Allocation, Handle};
use host_values::Told;
use records::totals::Totals;

// The length of a live span.
#[unsafe(no_mangle)]
pub extern "C" fn ds_size_of(
    scalars: &[u32; Totals::SCALARS],
    offset: u32,
    handle: u32,
    bins: &[u32; 256],
    leaves: &[u8; 32],
    nodes: &[u32],
    pile: &[u32],
) -> Told
    ensures { Tells (told_by (asks_size offset handle)) (λ a. Asked a (SizeOf (span_of offset handle))
        (words_in scalars.now bins.now leaves.now nodes.now pile.now)) result }
{
    let t = Totals::of_array(scalars);
    let span = Allocation {
        offset,
        metadata: Handle(handle),
    };
    host_values::of_answer(asking::allocation_size(t, span, bins, leaves, nodes, pile))
}

// The sum of the free lengths, and the value of the highest class that holds a region.
#[unsafe(no_mangle)]
pub extern "C" fn ds_report(
    scalars: &[u32; Totals::SCALARS],
    bins: &[u32; 256],
    leaves: &[u8; 32],
    nodes: &[u32],
    pile: &[u32],
) -> Told
    ensures { Tells (told_by (Ask Report)) (λ a. Asked a Report
        (words_in scalars.now bins.now leaves.now nodes.now pile.now)) result }
{
    let t = Totals::of_array(scalars);
    host_values::of_answer(asking::storage_report(t, bins, leaves, nodes, pile))
}

// The value of each class, and how many free regions it holds: two columns that the caller lends. Refused, both are zeros.
#[unsafe(no_mangle)]
pub extern "C" fn ds_full_report(
    scalars: &[u32; Totals::SCALARS],
    bins: &[u32; 256],
    leaves: &[u8; 32],
    nodes: &[u32],
    pile: &[u32],
    sizes: &mut [u64; 256],
    counts: &mut [u32; 256],
) -> u32
    ensures { Tells number_of_full (FullTold edition32
        (words_in scalars.now bins.now leaves.now nodes.now pile.now)
        sizes.new counts.new) result }
{
    let t = Totals::of_array(scalars);
    let full = asking::storage_report_full(t, bins, leaves, nodes, pile);
    let values = full.sizes;
    let regions = full.counts;
    *sizes = values;
    *counts = regions;
    full.number()
}

// The live lengths summed, and how many of 256 equal parts of the store they fill.
#[unsafe(no_mangle)]
pub extern "C" fn ds_fill(
    scalars: &[u32; Totals::SCALARS],
    bins: &[u32; 256],
    leaves: &[u8; 32],
    nodes: &[u32],
    pile: &[u32],
) -> Told
    ensures { Tells (told_by (Ask Fill)) (λ a. Asked a Fill
        (words_in scalars.now bins.now leaves.now nodes.now pile.now)) result }
{
    let t = Totals::of_array(scalars);
    host_values::of_answer(asking::fill(t, bins, leaves, nodes, pile))
}

// Whether the words stand for a ledger: 0 if they do.
#[unsafe(no_mangle)]
pub extern "C" fn ds_audit(
    scalars: &[u32; Totals::SCALARS],
    bins: &[u32; 256],
    leaves: &[u8; 32],
    nodes: &[u32],
    pile: &[u32],
    scratch: &mut [u32],
) -> u32
    ensures { Tells refusal_of (AuditPromise edition32
        (words_in scalars.now bins.now leaves.now nodes.now pile.now)
        scratch.old scratch.new) result }
{
    let t = Totals::of_array(scalars);
    answers::number(auditing::audit(t, bins, leaves, nodes, pile, scratch))
}
