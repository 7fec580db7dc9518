// The rows of a full report: one for each class that holds something, one after the other; then a row that says how many they were.
ghost use Rattle.std.specs.Prelude.{◌≡◌};
ghost use Rattle.run_rows.specs.Full.{classes_after, whole_report};

use oracle_lists::rows::Reader;
use oracle_lists::tally::Verdict;

// How many rows of classes have come just before the next row.
#[tactic(auto, unfolding(crate::specs::Full::classes_after))]
pub fn classes_after(row: Reader, classes: u32) -> u32
    ensures { result ≡ classes_after row classes }
{
    if row.letter == b'g' && classes < 256 {
        classes + 1
    } else {
        0
    }
}

// So a class that the list leaves out shows at the report's last row.
#[tactic(auto, unfolding(crate::specs::Full::whole_report))]
pub fn whole_report(row: Reader, classes: u32, verdict: Verdict) -> Verdict
    ensures { result ≡ whole_report row classes verdict }
{
    if row.letter == b'e' && row.d != classes {
        Verdict::Differs
    } else {
        verdict
    }
}
