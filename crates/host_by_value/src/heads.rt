// A head made of the arrays that a program keeps, and put back into them.
ghost use Rattle.std.specs.Prelude.{◌≡◌, List, ℕ};
ghost use Rattle.offset_allocator.specs.HeadWords.{head_words};
ghost use Rattle.host_values.specs.Kept.{words_in};

use offset_allocator::head::Head;
use records::totals::Totals;

// A copy of them.
pub fn of_arrays(scalars: &[u32; Totals::SCALARS], bins: &[u32; 256], leaves: &[u8; 32]) -> Head
    ensures { (nodes pile : List ℕ) → head_words result nodes pile
        ≡ words_in scalars.now bins.now leaves.now nodes pile }
{
    let totals = Totals::of_array(scalars);
    let bin_indices = *bins;
    let used_bins = *leaves;
    Head {
        totals,
        bin_indices,
        used_bins,
    }
}

// All of it is put back, for a setup changes all of it.
pub fn keep(
    head: Head,
    scalars: &mut [u32; Totals::SCALARS],
    bins: &mut [u32; 256],
    leaves: &mut [u8; 32],
)
    ensures { (nodes pile : List ℕ) → head_words head nodes pile
        ≡ words_in scalars.new bins.new leaves.new nodes pile }
{
    let totals = head.totals;
    let bin_indices = head.bin_indices;
    let used_bins = head.used_bins;
    host_values::keep(totals, scalars);
    *bins = bin_indices;
    *leaves = used_bins;
}
