// Hand back, with the head by value.
ghost use Rattle.ledger.specs.Calls.{HandBack};
ghost use Rattle.tables.specs.Calls.{edition32};
ghost use Rattle.tables.specs.Promise.{Promise};
ghost use Rattle.answers.specs.Asked.{token_of};
ghost use Rattle.answers.specs.Answers.{back_says};
ghost use Rattle.offset_allocator.specs.HeadWords.{head_words};

use crate::head::{Answered, Head};
use answers::Allocation;

impl Head {
    // A span goes back, or why not.
    pub fn free(self, span: Allocation, nodes: &mut [u32], free_nodes: &mut [u32]) -> Answered<()>
        ensures { Promise edition32 (HandBack (token_of span))
            (head_words self nodes.old free_nodes.old)
            (head_words result.head nodes.new free_nodes.new)
            (back_says result.answer) }
    {
        let mut bin_indices = self.bin_indices;
        let mut used_bins = self.used_bins;
        let kept = self.totals;
        // In a place of their own: lent where they stand, they would keep the compiler from holding the head in parts (docs/SPEED.md).
        let t = kept.copied();
        let returned = giving::free(t, span, &mut bin_indices, &mut used_bins, nodes, free_nodes);
        let answer = returned.answer;
        let totals = returned.totals;
        let head = Head {
            totals,
            bin_indices,
            used_bins,
        };
        Answered { answer, head }
    }
}
