// The questions, with the head by value. They write nothing, so the head does not come back.
ghost use Rattle.ledger.specs.Calls.{SizeOf, Report, FullReport, Fill};
ghost use Rattle.answers.specs.Asked.{token_of};
ghost use Rattle.answers.specs.Answers.{size_says, report_says, full_says, fill_says, FiguresOfZero, AllPlaces};
ghost use Rattle.asking.specs.Answers.{Asked};
ghost use Rattle.offset_allocator.specs.HeadWords.{head_words};

use crate::head::Head;
use answers::{Allocation, FullAnswer, Refusal, StorageReport};
use small_float::Size;

impl Head {
    // The length of a live span.
    pub fn allocation_size(
        self,
        span: Allocation,
        nodes: &[u32],
        free_nodes: &[u32],
    ) -> Result<Size, Refusal>
        ensures { Asked (size_says result) (SizeOf (token_of span)) (head_words self nodes.now free_nodes.now) }
    {
        asking::allocation_size(
            self.totals,
            span,
            &self.bin_indices,
            &self.used_bins,
            nodes,
            free_nodes,
        )
    }

    // The sum of the free lengths, and the value of the highest class that holds a region; 0 and 0 with one spare record.
    pub fn storage_report(self, nodes: &[u32], free_nodes: &[u32]) -> Result<StorageReport, Refusal>
        ensures { Asked (report_says result) Report (head_words self nodes.now free_nodes.now) }
    {
        asking::storage_report(
            self.totals,
            &self.bin_indices,
            &self.used_bins,
            nodes,
            free_nodes,
        )
    }

    // The value of each class, and how many free regions it holds.
    pub fn storage_report_full(self, nodes: &[u32], free_nodes: &[u32]) -> FullAnswer
        ensures exact { Asked (full_says result) FullReport (head_words self nodes.now free_nodes.now) }
        ensures figures { FiguresOfZero result }
        ensures places { AllPlaces result }
    {
        asking::storage_report_full(
            self.totals,
            &self.bin_indices,
            &self.used_bins,
            nodes,
            free_nodes,
        )
    }

    // The live lengths summed, and how many of 256 equal parts of the store they fill.
    pub fn fill(self, nodes: &[u32], free_nodes: &[u32]) -> Result<answers::Fill, Refusal>
        ensures { Asked (fill_says result) Fill (head_words self nodes.now free_nodes.now) }
    {
        asking::fill(
            self.totals,
            &self.bin_indices,
            &self.used_bins,
            nodes,
            free_nodes,
        )
    }
}
