// Setup and reset, with the head by value.
ghost use Rattle.ledger.specs.Calls.{Reset};
ghost use Rattle.tables.specs.Setup.{tables_alone};
ghost use Rattle.tables.specs.Calls.{edition32};
ghost use Rattle.tables.specs.Promise.{Promise, SetupPromise};
ghost use Rattle.answers.specs.Answers.{start_says};
ghost use Rattle.offset_allocator.specs.HeadWords.{head_words};

use crate::head::{Answered, Head};
use small_float::Size;

impl Head {
    // A store of this size, all of it free, with this many records: the fresh head. Refused, the head is one of zeros.
    pub fn with_max_allocs(
        size: Size,
        max_allocs: u32,
        nodes: &mut [u32],
        free_nodes: &mut [u32],
    ) -> Answered<()>
        ensures { SetupPromise edition32 size.0 max_allocs (tables_alone nodes.old free_nodes.old)
            (head_words result.head nodes.new free_nodes.new)
            (start_says result.answer) }
    {
        let mut bin_indices = [0u32; 256];
        let mut used_bins = [0u8; 32];
        let started = starting::with_max_allocs(
            size,
            max_allocs,
            &mut bin_indices,
            &mut used_bins,
            nodes,
            free_nodes,
        );
        let answer = started.answer;
        let totals = started.totals;
        let head = Head {
            totals,
            bin_indices,
            used_bins,
        };
        Answered { answer, head }
    }

    // The same with the count of records that the Rust takes by default.
    pub fn new(size: Size, nodes: &mut [u32], free_nodes: &mut [u32]) -> Answered<()>
        ensures { SetupPromise edition32 size.0 131072 (tables_alone nodes.old free_nodes.old)
            (head_words result.head nodes.new free_nodes.new)
            (start_says result.answer) }
    {
        Head::with_max_allocs(size, starting::DEFAULT_MAX_ALLOCS, nodes, free_nodes)
    }

    // All spans are forgotten: the store is as after setup, whatever the words held.
    pub fn reset(self, nodes: &mut [u32], free_nodes: &mut [u32]) -> Answered<()>
        ensures { Promise edition32 Reset
            (head_words self nodes.old free_nodes.old)
            (head_words result.head nodes.new free_nodes.new)
            (start_says result.answer) }
    {
        let mut bin_indices = self.bin_indices;
        let mut used_bins = self.used_bins;
        let t = self.totals;
        let started = starting::reset(t, &mut bin_indices, &mut used_bins, nodes, free_nodes);
        let answer = started.answer;
        let totals = started.totals;
        let head = Head {
            totals,
            bin_indices,
            used_bins,
        };
        Answered { answer, head }
    }
}
