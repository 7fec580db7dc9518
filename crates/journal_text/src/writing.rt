// A call, an answer, and what ends a replay, as a line of text in bytes that are lent; no newline. Numbers are written from their last digit to their
// first, at their place, so that a replay spends one turn on a digit to count them and one to write them.
ghost use Rattle.std.specs.Prelude.{◌≡◌, [], ◌∷◌, ◌++◌, ◌+◌, ◌<◌, ◌≤◌, length};
ghost use Rattle.journal_text.specs.Decimal.{decimal, spaced};
ghost use Rattle.journal_text.specs.Texts.{text_of, answer_text, broken_text, PutAt, Leads};

use answers::Allocation;
use calls::{Answer, Call};
use journal::entry::Broken;

fn digit(d: u32) -> u8
    requires { d < 10 }
    ensures { result ≡ 48 + d }
{
    b'0' + (d as u8)
}

// How many digits a number has.
fn digits(n: u32) -> usize
    ensures { (result ≡ length (decimal n)) × (result ≤ 10) }
{
    let mut count = 1;
    let mut rest = n;
    // by the digits that are left, and no index: the text of std's numbers goes to a writer, of which there is none into lent bytes without a heap
    while 10 <= rest {
        rest = rest / 10;
        count += 1;
    }
    count
}

// A number in decimal at a place; the place behind it.
fn put_decimal(n: u32, out: &mut [u8], at: usize) -> usize
    requires { at + 10 ≤ length out.old }
    ensures { PutAt (decimal n) out.old at out.new result × (result ≤ at + 10) }
{
    let next = at + digits(n);
    let mut place = next - 1;
    let mut rest = n;
    while 10 <= rest {
        out[place] = digit(rest % 10);
        rest = rest / 10;
        place -= 1;
    }
    out[place] = digit(rest);
    next
}

// The same behind a space.
fn put_number(n: u32, out: &mut [u8], at: usize) -> usize
    requires { at + 11 ≤ length out.old }
    ensures { PutAt (spaced (n ∷ [])) out.old at out.new result × (result ≤ at + 11) }
{
    out[at] = b' ';
    put_decimal(n, out, at + 1)
}

// A word at the front.
fn put_word(word: &[u8], out: &mut [u8]) -> usize
    requires { length word.now ≤ length out.old }
    ensures { PutAt word.now out.old 0 out.new result }
{
    let n = word.len();
    out[..n].copy_from_slice(word);
    n
}

// A word and a number.
fn put_one(word: &[u8], n: u32, out: &mut [u8]) -> usize
    requires { length word.now + 11 ≤ length out.old }
    ensures { PutAt (word.now ++ spaced (n ∷ [])) out.old 0 out.new result }
{
    let next = put_word(word, out);
    put_number(n, out, next)
}

// A word and two numbers.
fn put_two(word: &[u8], first: u32, second: u32, out: &mut [u8]) -> usize
    requires { length word.now + 22 ≤ length out.old }
    ensures { PutAt (word.now ++ spaced (first ∷ second ∷ [])) out.old 0 out.new result }
{
    let next = put_word(word, out);
    let behind = put_number(first, out, next);
    put_number(second, out, behind)
}

// The bytes are the caller's, 32 or more of them, and no array of a type, since nobody is asked for just so many.
fn put_call(call: Call, out: &mut [u8]) -> usize
    requires { 32 ≤ length out.old }
    ensures { PutAt (text_of call) out.old 0 out.new result }
{
    match call {
        Call::Take(size) => put_one(b"take", size.0, out),
        Call::HandBack(span) => put_two(b"back", span.metadata.0, span.offset, out),
        Call::SetUp(size, count) => put_two(b"setup", size.0, count, out),
        Call::Reset => put_word(b"reset", out),
    }
}

// The refusal number of a grant is 0.
fn put_granted(span: Allocation, out: &mut [u8]) -> usize
    requires { 32 ≤ length out.old }
    ensures { PutAt (decimal 0 ++ spaced (span.offset ∷ span.metadata.0 ∷ [])) out.old 0 out.new result }
{
    let handle = span.metadata;
    put_two(b"0", span.offset, handle.0, out)
}

// A number alone.
fn put_plain(n: u32, out: &mut [u8]) -> usize
    requires { 32 ≤ length out.old }
    ensures { PutAt (decimal n) out.old 0 out.new result }
{
    put_decimal(n, out, 0)
}

// What is done gives a span, or nothing.
fn put_done(given: Option<Allocation>, out: &mut [u8]) -> usize
    requires { 32 ≤ length out.old }
    ensures { PutAt (answer_text (Ok given)) out.old 0 out.new result }
{
    match given {
        None => put_word(b"0", out),
        Some(span) => put_granted(span, out),
    }
}

fn put_answer(answer: Answer, out: &mut [u8]) -> usize
    requires { 32 ≤ length out.old }
    ensures { PutAt (answer_text answer) out.old 0 out.new result }
{
    match answer {
        Ok(given) => put_done(given, out),
        Err(why) => put_plain(why.number(), out),
    }
}

// A call's line in the first bytes, and how many they are; the others stay.
pub fn line_of(call: Call, out: &mut [u8; 32]) -> usize
    ensures { Leads (text_of call) out.old out.new result }
{
    put_call(call, out)
}

// And the line that a replay prints for an answer.
pub fn line_of_answer(answer: Answer, out: &mut [u8; 32]) -> usize
    ensures { Leads (answer_text answer) out.old out.new result }
{
    put_answer(answer, out)
}

// And the last one, where a record cannot be read.
pub fn line_of_broken(why: Broken, out: &mut [u8; 32]) -> usize
    ensures { Leads (broken_text why) out.old out.new result }
{
    put_plain(why.number(), out)
}
