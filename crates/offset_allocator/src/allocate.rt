// Take, with the head by value.
ghost use Rattle.ledger.specs.Calls.{Take};
ghost use Rattle.tables.specs.Calls.{edition32};
ghost use Rattle.tables.specs.Promise.{Promise};
ghost use Rattle.answers.specs.Asked.{request_of};
ghost use Rattle.answers.specs.Answers.{take_says};
ghost use Rattle.offset_allocator.specs.HeadWords.{head_words};

use crate::head::{Answered, Head};
use answers::{Allocation, Refusal};
use small_float::Size;

impl Head {
    // A span of this size, or why not.
    pub fn allocate(self, size: Size, nodes: &mut [u32], free_nodes: &[u32]) -> Answered<Allocation>
        ensures { Promise edition32 (Take (request_of size))
            (head_words self nodes.old free_nodes.now)
            (head_words result.head nodes.new free_nodes.now)
            (take_says result.answer) }
    {
        let mut bin_indices = self.bin_indices;
        let mut used_bins = self.used_bins;
        let kept = self.totals;
        // In a place of their own: lent where they stand, they would keep the compiler from holding the head in parts (docs/SPEED.md).
        let t = kept.copied();
        let taken = taking::allocate(t, size, &mut bin_indices, &mut used_bins, nodes, free_nodes);
        let answer = taken.answer;
        let totals = taken.totals;
        let head = Head {
            totals,
            bin_indices,
            used_bins,
        };
        Answered { answer, head }
    }
}
