// The questions and the audit, with the head by value. Nothing is written but what they are to fill: the columns of the full report, the scratch.
ghost use Rattle.ledger.specs.Figures.{refusal_of};
ghost use Rattle.ledger.specs.Calls.{Ask, SizeOf, Report, Fill, span_of, asks_size};
ghost use Rattle.tables.specs.Calls.{edition32};
ghost use Rattle.audit_words.specs.Promise.{AuditPromise};
ghost use Rattle.asking.specs.Answers.{Asked};
ghost use Rattle.host_values.specs.Kept.{words_in};
ghost use Rattle.host_values.specs.Tells.{Tells};
ghost use Rattle.host_values.specs.Told.{told_by, number_of_full, FullTold};

use crate::heads;
use answers::{Allocation, Handle};
use host_values::Told;
use records::totals::Totals;

// The length of a live span.
pub fn ds_by_value_size_of(
    scalars: &[u32; Totals::SCALARS],
    offset: u32,
    handle: u32,
    bins: &[u32; 256],
    leaves: &[u8; 32],
    nodes: &[u32],
    pile: &[u32],
) -> Told
    ensures { Tells (told_by (asks_size offset handle)) (λ a. Asked a (SizeOf (span_of offset handle))
        (words_in scalars.now bins.now leaves.now nodes.now pile.now)) result }
{
    let head = heads::of_arrays(scalars, bins, leaves);
    let span = Allocation {
        offset,
        metadata: Handle(handle),
    };
    host_values::of_answer(head.allocation_size(span, nodes, pile))
}

// The sum of the free lengths, and the value of the highest class that holds a region.
pub fn ds_by_value_report(
    scalars: &[u32; Totals::SCALARS],
    bins: &[u32; 256],
    leaves: &[u8; 32],
    nodes: &[u32],
    pile: &[u32],
) -> Told
    ensures { Tells (told_by (Ask Report)) (λ a. Asked a Report
        (words_in scalars.now bins.now leaves.now nodes.now pile.now)) result }
{
    let head = heads::of_arrays(scalars, bins, leaves);
    host_values::of_answer(head.storage_report(nodes, pile))
}

// The value of each class, and how many free regions it holds: two columns that the caller lends. Refused, both are zeros.
pub fn ds_by_value_full_report(
    scalars: &[u32; Totals::SCALARS],
    bins: &[u32; 256],
    leaves: &[u8; 32],
    nodes: &[u32],
    pile: &[u32],
    sizes: &mut [u64; 256],
    counts: &mut [u32; 256],
) -> u32
    ensures { Tells number_of_full (FullTold edition32
        (words_in scalars.now bins.now leaves.now nodes.now pile.now)
        sizes.new counts.new) result }
{
    let head = heads::of_arrays(scalars, bins, leaves);
    let full = head.storage_report_full(nodes, pile);
    let values = full.sizes;
    let regions = full.counts;
    *sizes = values;
    *counts = regions;
    full.number()
}

// The live lengths summed, and how many of 256 equal parts of the store they fill.
pub fn ds_by_value_fill(
    scalars: &[u32; Totals::SCALARS],
    bins: &[u32; 256],
    leaves: &[u8; 32],
    nodes: &[u32],
    pile: &[u32],
) -> Told
    ensures { Tells (told_by (Ask Fill)) (λ a. Asked a Fill
        (words_in scalars.now bins.now leaves.now nodes.now pile.now)) result }
{
    let head = heads::of_arrays(scalars, bins, leaves);
    host_values::of_answer(head.fill(nodes, pile))
}

// Whether the words stand for a ledger: 0 if they do.
pub fn ds_by_value_audit(
    scalars: &[u32; Totals::SCALARS],
    bins: &[u32; 256],
    leaves: &[u8; 32],
    nodes: &[u32],
    pile: &[u32],
    scratch: &mut [u32],
) -> u32
    ensures { Tells refusal_of (AuditPromise edition32
        (words_in scalars.now bins.now leaves.now nodes.now pile.now)
        scratch.old scratch.new) result }
{
    let head = heads::of_arrays(scalars, bins, leaves);
    answers::number(head.audit(nodes, pile, scratch))
}
