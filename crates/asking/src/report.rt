// storage_report behind the gate: the highest class that holds something, by leading zeros of the top word, then of its leaf byte.
ghost use Rattle.std.specs.Prelude.{◌≡◌, ◌<◌, []};
ghost use Rattle.ledger.specs.Ledger.{reported};
ghost use Rattle.tables.specs.Questions.{report_class, report_leaf, report_top, report_of};
ghost use Rattle.records.specs.InWords.{words_of};
ghost use Rattle.answers.specs.Answers.{report_says};

use answers::{Refusal, StorageReport};
use bitmap::search;
use records::totals::Totals;
use small_float::{Class, Size};

fn figures(total: u32, largest: Size) -> Result<StorageReport, Refusal>
    ensures { report_says result ≡ reported total largest.0 }
{
    Ok(StorageReport {
        total_free_space: Size(total),
        largest_free_region: largest,
    })
}

// A class that a region can have.
fn report_class(t: Totals, c: Class) -> Result<StorageReport, Refusal>
    ensures { report_says result ≡ report_class (words_of t [] [] [] []) c.0 }
{
    if c.0 < small_float::CLASSES_IN_USE {
        return figures(t.free_storage, small_float::size_of_class(c));
    }
    Err(Refusal::Unsound)
}

// The highest class of a top bin, whose leaf byte is m.
fn report_leaf(t: Totals, top: u32, m: u32) -> Result<StorageReport, Refusal>
    requires { top < 32 }
    ensures { report_says result ≡ report_leaf (words_of t [] [] [] []) top m }
{
    if m == 0 {
        return Err(Refusal::Unsound);
    }
    let class = 8 * top + search::highest_bit_set(m);
    report_class(t, Class(class))
}

fn report_top(t: Totals, top: u32, used_bins: &[u8; 32]) -> Result<StorageReport, Refusal>
    requires { top < 32 }
    ensures { report_says result ≡ report_top (words_of t [] used_bins.now [] []) top }
{
    let i = top as usize;
    report_leaf(t, top, u32::from(used_bins[i]))
}

// With one spare record nothing can be taken, and the report says 0 and 0.
pub fn report(t: Totals, used_bins: &[u8; 32]) -> Result<StorageReport, Refusal>
    ensures { report_says result ≡ report_of (words_of t [] used_bins.now [] []) }
{
    if t.free_offset == 0 {
        return figures(0, Size(0));
    }
    let top = t.used_bins_top;
    if top == 0 {
        return figures(t.free_storage, Size(0));
    }
    report_top(t, search::highest_bit_set(top), used_bins)
}
