// The calls that change something, and their answers, as values: what a journal keeps, and what `calling::make` makes. Questions change nothing and
// are not among them.
#![tactic(auto)]

ghost use Rattle.std.specs.Prelude.{◌≡◌};
ghost use Rattle.ledger.specs.Figures.{refusal_of};
ghost use Rattle.answers.specs.Answers.{start_says, take_says};
ghost use Rattle.calls.specs.Values.{says};

use answers::{Allocation, Refusal};
use small_float::Size;

#[derive(Clone, Copy)]
pub enum Call {
    // a size
    Take(Size),
    // the span: its record, and where it starts
    HandBack(Allocation),
    // a store's size, and its count of records
    SetUp(Size, u32),
    Reset,
}

// What any of them answers: a take that is granted gives a span, and what else is done gives nothing.
pub type Answer = Result<Option<Allocation>, Refusal>;

// The documents' number of what any of them answers; 0 where it is no refusal.
pub fn number(answer: Answer) -> u32
    ensures { result ≡ refusal_of (says answer) }
{
    match answer {
        Ok(None) => 0,
        Ok(Some(_)) => 0,
        Err(why) => why.number(),
    }
}

// Each call's own answer as one of these: it says the same. Setup, reset and hand back are merely done.
pub fn of_done(answer: Result<(), Refusal>) -> Answer
    ensures { says result ≡ start_says answer }
{
    answer?;
    Ok(None)
}

pub fn of_take(answer: Result<Allocation, Refusal>) -> Answer
    ensures { says result ≡ take_says answer }
{
    Ok(Some(answer?))
}
