// The list of runs: what the Rust answered, held against what the port answers.
#![tactic(auto)]

ghost use Rattle.std.specs.Prelude.{◌≡◌};
ghost use Rattle.call_verdicts.specs.Verdicts.{same_numbers, call_verdict, both_verdict};

use oracle_lists::rows::Reader;
use oracle_lists::tally::Verdict;

// The row that the port would write for a call: its letter and its last two numbers, 0 where it has fewer. The number before the last has
// 64 bits, as the value of a class has.
#[derive(Clone, Copy)]
pub struct Said {
    pub letter: u8,
    pub c: u64,
    pub d: u32,
}

// The two last numbers are the same; the last one is not compared where it is a length that the Rust gave and the port does not.
#[tactic(auto, unfolding(crate::specs::Verdicts::same_numbers))]
fn judge_numbers(row: Reader, said: Said) -> Verdict
    ensures { result ≡ same_numbers row said }
{
    if u64::from(row.c) != said.c {
        return Verdict::Differs;
    }
    match row.letter {
        b'u' | b'm' => Verdict::Listed,
        _ if row.d != said.d => Verdict::Differs,
        b'b' | b'w' => Verdict::Listed,
        _ => Verdict::Agrees,
    }
}

// One form's answer, if there is a row that says it. The listed differences are rows of spans that the port refuses. `b OFFSET RECORD` and
// `u OFFSET RECORD LENGTH`: the record is not live, and the Rust panics, or gives a length that means nothing. `w OFFSET RECORD` and
// `m OFFSET RECORD LENGTH`: it is live but starts elsewhere, and the Rust goes by the record alone.
#[tactic(auto, unfolding(crate::specs::Verdicts::call_verdict))]
pub fn judge(row: Reader, said: Option<Said>) -> Verdict
    ensures { result ≡ call_verdict row said }
{
    match said {
        Some(said) if row.letter == said.letter => judge_numbers(row, said),
        _ => Verdict::Differs,
    }
}

// Both forms' verdicts on one row: what they are, if they are the same.
pub fn both(first: Verdict, second: Verdict) -> Verdict
    ensures { result ≡ both_verdict first second }
{
    if first == second {
        first
    } else {
        Verdict::Differs
    }
}
