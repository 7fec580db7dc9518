// A line of text, read.
ghost use Rattle.std.specs.Prelude.{◌≡◌, true, ◌+◌, ◌-◌, ◌<◌, ◌≤◌, length, take, drop};
ghost use Rattle.calls.specs.declared.Call.TheVariants as call;
ghost use Rattle.journal_text.specs.Words.{is_blank, is_ink, is_digit, leading, only_blanks, word_in, behind_word};
ghost use Rattle.journal_text.specs.Lines.{made_on, valued, number_of, last_number, holds, holds_two, resets, call_in, line_in};

use crate::line::{Fault, Line};
use answers::{Allocation, Handle};
use calls::Call;
use small_float::Size;

#[tactic(auto, unfolding(crate::specs::Words::is_blank))]
fn is_blank(byte: u8) -> bool
    ensures { result ≡ is_blank byte }
{
    matches!(byte, b' ' | b'\t' | b'\r')
}

#[tactic(auto, unfolding(crate::specs::Words::is_digit))]
fn is_digit(byte: u8) -> bool
    ensures { result ≡ is_digit byte }
{
    byte.is_ascii_digit()
}

// How many blanks stand in front.
fn blanks(text: &[u8]) -> usize
    ensures { (result ≡ leading is_blank text.now) × (result ≤ length text.now) }
{
    text.iter().take_while(|byte| is_blank(**byte)).count()
}

// How many bytes stand in front of the first blank.
#[tactic(auto, unfolding(crate::specs::Words::is_ink))]
fn inked(text: &[u8]) -> usize
    ensures { (result ≡ leading is_ink text.now) × (result ≤ length text.now) }
{
    text.iter().take_while(|byte| !is_blank(**byte)).count()
}

// How many digits stand in front.
fn digits(text: &[u8]) -> usize
    ensures { (result ≡ leading is_digit text.now) × (result ≤ length text.now) }
{
    text.iter().take_while(|byte| is_digit(**byte)).count()
}

// What a digit stands for.
#[tactic(auto, using(crate::proofs::Scanning::digit_range))]
fn figure(byte: u8) -> u64
    requires { is_digit byte ≡ true }
    ensures { (result ≡ byte - 48) × (result < 10) }
{
    u64::from(byte - b'0')
}

// The number that digits make. Once it is too large it stays so: later digits only add to it.
fn made(word: &[u8]) -> Result<u32, Fault>
    requires { leading is_digit word.now ≡ length word.now }
    ensures { result ≡ valued (made_on 0 word.now) }
{
    let mut n: u64 = 0;
    for byte in word {
        n = 10 * n + figure(*byte);
        if u64::from(u32::MAX) < n {
            return Err(Fault::TooLarge);
        }
    }
    Ok(n as u32)
}

// A word as a number.
#[tactic(auto, unfolding(crate::specs::Lines::number_of))]
fn number_of(word: &[u8]) -> Result<u32, Fault>
    ensures { result ≡ number_of word.now }
{
    let n = word.len();
    if n == 0 {
        return Err(Fault::MissingNumber);
    }
    if digits(word) != n {
        return Err(Fault::NotANumber);
    }
    made(word)
}

// Nothing but blanks stands there.
#[tactic(auto, unfolding(crate::specs::Words::only_blanks))]
fn is_empty(text: &[u8]) -> bool
    ensures { result ≡ only_blanks text.now }
{
    blanks(text) == text.len()
}

// Where the first word ends, if it starts there.
fn word_end(text: &[u8], start: usize) -> usize
    requires { (start ≡ leading is_blank text.now) × (start ≤ length text.now) }
    ensures { (take (result - start) (drop start text.now) ≡ word_in text.now)
        × (drop result text.now ≡ behind_word text.now) × (start ≤ result) × (result ≤ length text.now) }
{
    start + inked(&text[start..])
}

// The first word as a number.
fn number_in(text: &[u8]) -> Result<u32, Fault>
    ensures { result ≡ number_of (word_in text.now) }
{
    let start = blanks(text);
    let end = word_end(text, start);
    number_of(&text[start..end])
}

// What stands behind the first word.
fn behind(text: &[u8]) -> &[u8]
    ensures { result.now ≡ behind_word text.now }
{
    let end = word_end(text, blanks(text));
    &text[end..]
}

// A number with nothing behind it.
#[tactic(auto, unfolding(crate::specs::Lines::last_number, crate::specs::Lines::ended))]
fn last_number(text: &[u8]) -> Result<u32, Fault>
    ensures { result ≡ last_number text.now }
{
    let n = number_in(text)?;
    if !is_empty(behind(text)) {
        return Err(Fault::TooMuch);
    }
    Ok(n)
}

#[tactic(auto, unfolding(crate::specs::Lines::holds))]
fn take_in(text: &[u8]) -> Line
    ensures { result ≡ holds (λ size. call.Take record { 0 = size }) (last_number text.now) }
{
    let size = last_number(text)?;
    Ok(Some(Call::Take(Size(size))))
}

#[tactic(auto, unfolding(crate::specs::Lines::holds, crate::specs::Lines::holds_two))]
fn hand_back_in(text: &[u8]) -> Line
    ensures { result ≡ holds_two (λ handle offset. call.HandBack record { offset = offset; metadata = record { 0 = handle } })
        (number_of (word_in text.now)) (behind_word text.now) }
{
    let handle = number_in(text)?;
    let offset = last_number(behind(text))?;
    Ok(Some(Call::HandBack(Allocation {
        offset,
        metadata: Handle(handle),
    })))
}

#[tactic(auto, unfolding(crate::specs::Lines::holds, crate::specs::Lines::holds_two))]
fn set_up_in(text: &[u8]) -> Line
    ensures { result ≡ holds_two (λ size count. call.SetUp record { 0 = size } count)
        (number_of (word_in text.now)) (behind_word text.now) }
{
    let size = number_in(text)?;
    let count = last_number(behind(text))?;
    Ok(Some(Call::SetUp(Size(size), count)))
}

#[tactic(auto, unfolding(crate::specs::Lines::resets))]
fn reset_in(text: &[u8]) -> Line
    ensures { result ≡ resets text.now }
{
    if !is_empty(text) {
        return Err(Fault::TooMuch);
    }
    Ok(Some(Call::Reset))
}

// By the first word.
#[tactic(auto, unfolding(crate::specs::Lines::call_in))]
fn call_in(word: &[u8], text: &[u8]) -> Line
    ensures { result ≡ call_in word.now text.now }
{
    match word {
        b"setup" => set_up_in(text),
        b"take" => take_in(text),
        b"back" => hand_back_in(text),
        b"reset" => reset_in(text),
        _ => Err(Fault::UnknownWord),
    }
}

// What a line holds.
#[tactic(auto, unfolding(crate::specs::Lines::line_in, crate::specs::Words::only_blanks))]
pub fn read_line(bytes: &[u8]) -> Line
    ensures { result ≡ line_in bytes.now }
{
    let start = blanks(bytes);
    if start == bytes.len() {
        return Ok(None);
    }
    if bytes[start] == b'#' {
        return Ok(None);
    }
    let end = word_end(bytes, start);
    call_in(&bytes[start..end], &bytes[end..])
}
