// A row of the list of runs: the call that it stands for. oracle/README.md has the letters.
ghost use Rattle.std.specs.Prelude.{◌≡◌};
ghost use Rattle.run_rows.specs.Asked.{call_of};

use call_values::call::Call;
use oracle_lists::rows::Reader;

// The row's last number is d, the one before it c, the one before that b. Where a length is asked, the last number is what the Rust answered; the span
// is the two before it. A row that is none of the list's stands for no call.
#[tactic(auto, unfolding(crate::specs::Asked::call_of, crate::specs::Asked::hand_back_of, crate::specs::Asked::question_of, crate::specs::Asked::is_row))]
pub fn call_of(row: Reader) -> Option<Call>
    ensures { result ≡ call_of row }
{
    match (row.letter, row.fields) {
        (b'n', 2) => Some(Call::SetUp(row.c, row.d)),
        (b'z', 0) => Some(Call::Reset),
        (b't', 3) => Some(Call::Take(row.b)),
        (b'x', 1) => Some(Call::Take(row.d)),
        (b'f' | b'b' | b'w', 2) => Some(Call::HandBack(row.c, row.d)),
        (b'l' | b'u' | b'm', 3) => Some(Call::SizeOf(row.b, row.c)),
        (b'r', 2) => Some(Call::Report),
        (b'g', 3) => Some(Call::ClassOf(row.b)),
        (b'e', 1) => Some(Call::ClassesHeld),
        _ => None,
    }
}
