// storage_report_full behind the gate: the value of each class, and the length of its list.
//
// Private to the allocator, though Rattle has no word for that: the room that is required here the gate has tested.
#![tactic(auto)]

ghost use Rattle.std.specs.Prelude.{◌≡◌, ℕ, ◌<◌, List, length, get_or, replicate};
ghost use Rattle.small_float.specs.Class.{value};
ghost use Rattle.ledger.specs.Ledger.{refused};
ghost use Rattle.tables.specs.Questions.{list_length, count_from, full_answer};
ghost use Rattle.answers.specs.Refusals.{number_of};
ghost use Rattle.records.specs.InWords.{words_of, HasRoom};
ghost use Rattle.answers.specs.Answers.{full_says, FiguresOfZero, AllPlaces};
ghost use Rattle.full_report.specs.Walks.{walked_of};

use answers::{FullAnswer, Handle, Refusal};
use records::nodes;
use records::nodes::Field;
use records::totals::Totals;
use small_float::Class;

// A refusal's figures are 0.
pub fn refuse(why: Refusal) -> FullAnswer
    ensures { (full_says result ≡ refused (number_of why)) × FiguresOfZero result × AllPlaces result }
{
    FullAnswer {
        outcome: Err(why),
        sizes: [0u64; 256],
        counts: [0u32; 256],
    }
}

// The value of each class. From class 240 on it is none that a Size holds, so the column is 64 bits wide.
fn class_sizes() -> [u64; 256]
    ensures { (length result ≡ 256) × ((c : ℕ) → c < 256 → get_or result c 0 ≡ value c) }
{
    let mut sizes = [0u64; 256];
    for c in 0..256u32 {
        let value = small_float::float_to_uint(Class(c));
        let i = c as usize;
        sizes[i] = value;
    }
    sizes
}

// How many records the list from `first` on has. A circular list would have no end, so no more steps are made than there are records, and it has no length.
fn list_length(nodes: &[u32], max_allocs: u32, first: Handle) -> Option<u32>
    requires { HasRoom max_allocs nodes.now }
    ensures { walked_of result ≡ list_length max_allocs nodes.now max_allocs first.0 0 }
{
    let start = first.0;
    let mut node = start;
    let mut n: u32 = 0;
    // along links and not along an index, as `list_length` of the model
    while node < max_allocs {
        if max_allocs <= n {
            return None;
        }
        node = nodes::word(nodes, Handle(node), Field::BinListNext);
        n += 1;
    }
    Some(n)
}

// The length of every list, or a refusal as unsound where one is circular. That the table holds every record the gate has tested.
pub fn count(t: Totals, bin_indices: &[u32; 256], nodes: &[u32]) -> FullAnswer
    requires { HasRoom t.max_allocs nodes.now }
    ensures exact { (leaves pile : List ℕ) → full_says result
        ≡ full_answer (count_from 256 (words_of t bin_indices.now leaves nodes.now pile) 0 (replicate 256 0)) }
    ensures figures { FiguresOfZero result }
    ensures places { AllPlaces result }
{
    let sizes = class_sizes();
    let mut counts = [0u32; 256];
    for i in 0..256usize {
        let top = bin_indices[i];
        let Some(n) = list_length(nodes, t.max_allocs, Handle(top)) else {
            return refuse(Refusal::Unsound);
        };
        counts[i] = n;
    }
    FullAnswer {
        outcome: Ok(()),
        sizes,
        counts,
    }
}
