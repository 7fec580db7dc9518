// The fill gauge read from a store, in place and with the head by value. Nothing of the store is written.
#![tactic(auto)]

ghost use Rattle.tables.specs.Calls.{edition32};
ghost use Rattle.records.specs.InWords.{words_of};
ghost use Rattle.gauge.specs.Answers.{watch_of, reading_says};
ghost use Rattle.gauge.specs.Promise.{ReadPromise};
ghost use Rattle.offset_allocator.specs.HeadWords.{head_words};

use gauge::{Taken, Watch};
use offset_allocator::head::Head;
use records::totals::Totals;

// In place.
pub fn read_gauge(
    t: Totals,
    watch: Watch,
    bin_indices: &[u32; 256],
    used_bins: &[u8; 32],
    nodes: &[u32],
    free_nodes: &[u32],
) -> Taken
    ensures { ReadPromise edition32
        (words_of t bin_indices.now used_bins.now nodes.now free_nodes.now)
        (watch_of watch) (reading_says result.answer) (watch_of result.watch) }
{
    gauge::take_reading(
        watch,
        asking::fill(t, bin_indices, used_bins, nodes, free_nodes),
    )
}

// By value. The head does not come back, since nothing of it changes.
pub fn read_gauge_of(head: Head, watch: Watch, nodes: &[u32], free_nodes: &[u32]) -> Taken
    ensures { ReadPromise edition32 (head_words head nodes.now free_nodes.now)
        (watch_of watch) (reading_says result.answer) (watch_of result.watch) }
{
    gauge::take_reading(watch, head.fill(nodes, free_nodes))
}
