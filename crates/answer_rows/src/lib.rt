// What the port answered to a call, as the row of the list of runs that it would write. What was asked is written as it was asked; what was
// answered, as the port answered it. oracle/README.md has the letters. `trials` makes the calls; that answers are put rightly is proved here.
#![tactic(auto)]

ghost use Rattle.std.specs.Prelude.{◌≡◌};
ghost use Rattle.answer_rows.specs.Said.{row};
ghost use Rattle.answer_rows.specs.Said.{done_said, length_said, refused_said, no_grant_said, no_span_said, said_of};

use call_values::answer::Answer;
use call_values::call::Call;
use call_verdicts::Said;

fn row(letter: u8, c: u64, d: u32) -> Option<Said>
    ensures { result ≡ row letter c d }
{
    Some(Said { letter, c, d })
}

// `n SIZE COUNT`, `z`, `f OFFSET RECORD`.
fn of_done(call: Call) -> Option<Said>
    ensures { result ≡ done_said call }
{
    match call {
        Call::SetUp(size, count) => row(b'n', u64::from(size), count),
        Call::Reset => row(b'z', 0, 0),
        Call::HandBack(offset, record) => row(b'f', u64::from(offset), record),
        _ => None,
    }
}

// `l OFFSET RECORD LENGTH`, of which the last two numbers are compared; the offset is as it was asked.
fn of_length(call: Call, length: u32) -> Option<Said>
    ensures { result ≡ length_said call length }
{
    match call {
        Call::SizeOf(_, record) => row(b'l', u64::from(record), length),
        _ => None,
    }
}

// `x SIZE`: a take that gave nothing, for want of a spare record or of a region; the Rust does not say which.
#[tactic(auto, unfolding(crate::specs::Said::no_grant_said))]
fn of_no_grant(size: u32, number: u32) -> Option<Said>
    ensures { result ≡ no_grant_said size number }
{
    match number {
        3 | 4 => row(b'x', 0, size),
        _ => None,
    }
}

// A span that is none of the live ones, with a letter for each way: its record is not live; or it is, and starts elsewhere. The row's last two numbers
// are c and d.
#[tactic(auto, unfolding(crate::specs::Said::no_span_said))]
fn of_no_span(not_live: u8, elsewhere: u8, c: u32, d: u32, number: u32) -> Option<Said>
    ensures { result ≡ no_span_said not_live elsewhere c d number }
{
    match number {
        5 => row(not_live, u64::from(c), d),
        8 => row(elsewhere, u64::from(c), d),
        _ => None,
    }
}

// `x SIZE`; `b OFFSET RECORD` and `w OFFSET RECORD`; `u OFFSET RECORD LENGTH` and `m OFFSET RECORD LENGTH`, whose length the port does not give.
fn of_refused(call: Call, number: u32) -> Option<Said>
    ensures { result ≡ refused_said call number }
{
    match call {
        Call::Take(size) => of_no_grant(size, number),
        Call::HandBack(offset, record) => of_no_span(b'b', b'w', offset, record, number),
        Call::SizeOf(_, record) => of_no_span(b'u', b'm', record, 0, number),
        _ => None,
    }
}

// `t SIZE OFFSET RECORD`, `r TOTAL LARGEST`, `g CLASS SIZE COUNT`, `e CLASSES`, and those above. No list has another answer. From class 240 on the Rust's
// value of a class has lost its high bits and is not the port's; but no region has such a class, so no row names one.
pub fn said(call: Call, answer: Answer) -> Option<Said>
    ensures { result ≡ said_of call answer }
{
    match answer {
        Answer::Done => of_done(call),
        Answer::Granted(offset, record) => row(b't', u64::from(offset), record),
        Answer::Length(length) => of_length(call, length),
        Answer::Free(total, largest) => row(b'r', u64::from(total), largest),
        Answer::Regions(value, count) => row(b'g', value, count),
        Answer::Held(classes) => row(b'e', 0, classes),
        Answer::Refused(number) => of_refused(call, number),
        Answer::Nothing => None,
    }
}
