// The rows of the gauge's list, held against what a reading answered and what it left. The numbers of a float in a row are its bits.
#![tactic(auto)]

ghost use Rattle.std.specs.Prelude.{◌≡◌, pos, ◌-ℤ◌};
ghost use Rattle.std.specs.Float.{binary32};
ghost use Rattle.std.specs.Float.Ieee.{to_bits, of_bits};
ghost use Rattle.gauge_verdicts.specs.Rows.{Judged, Numbers, ToldRow, RefusedRow, KeptRow, StillRow};

use oracle_lists::rows::Reader;
use oracle_lists::tally::Verdict;

// A not-a-number has no bits that a rule fixes; in a list all have these.
const NOT_A_NUMBER: u32 = 2143289344;

const INFINITE: u32 = 2139095040;

pub fn bits_of(x: f32) -> u32
    ensures { result ≡ to_bits binary32 x }
{
    if x.is_nan() {
        return NOT_A_NUMBER;
    }
    x.to_bits()
}

// Above the bits of the infinities, but for the sign, every pattern is a not-a-number.
pub fn float_of(bits: u32) -> f32
    ensures { result ≡ of_bits binary32 bits }
{
    if INFINITE < bits % 2147483648 {
        return f32::NAN;
    }
    f32::from_bits(bits)
}

#[tactic(auto, using(crate::specs::Rows::agrees, crate::specs::Rows::differs))]
fn judge_numbers(row: Reader, fill: u16, level: f32, peak: f32, net: i64, change: i64) -> Verdict
    ensures { Judged (Numbers row fill level peak net change) result }
{
    if row.fields == 4
        && row.a == u32::from(fill)
        && row.b == bits_of(level)
        && row.c == bits_of(peak)
        && net == change
    {
        Verdict::Agrees
    } else {
        Verdict::Differs
    }
}

// `u FILL LEVEL PEAK UP`, or `d FILL LEVEL PEAK DOWN`: so many units more are live, or so many fewer.
#[tactic(auto, using(crate::specs::Rows::agrees, crate::specs::Rows::differs))]
pub fn judge_told(row: Reader, fill: u16, level: f32, peak: f32, net: i64) -> Verdict
    ensures { Judged (ToldRow row fill level peak net) result }
{
    match row.letter {
        b'u' => judge_numbers(row, fill, level, peak, net, i64::from(row.d)),
        b'd' => judge_numbers(row, fill, level, peak, net, -i64::from(row.d)),
        _ => Verdict::Differs,
    }
}

// `x NUMBER`.
#[tactic(auto, using(crate::specs::Rows::agrees, crate::specs::Rows::differs))]
pub fn judge_refused(row: Reader, number: u32) -> Verdict
    ensures { Judged (RefusedRow row number) result }
{
    if row.letter == b'x' && row.fields == 1 && row.d == number {
        Verdict::Agrees
    } else {
        Verdict::Differs
    }
}

// `k LEVEL PEAK LAST`: what is kept for the next reading.
#[tactic(auto, using(crate::specs::Rows::agrees, crate::specs::Rows::differs))]
pub fn judge_kept(row: Reader, level: f32, peak: f32, last: u32) -> Verdict
    ensures { Judged (KeptRow row level peak last) result }
{
    if row.letter == b'k'
        && row.fields == 3
        && row.b == bits_of(level)
        && row.c == bits_of(peak)
        && row.d == last
    {
        Verdict::Agrees
    } else {
        Verdict::Differs
    }
}

// `s LEVEL`: the level has these bits, before the last reading and after it.
#[tactic(auto, using(crate::specs::Rows::agrees, crate::specs::Rows::differs))]
pub fn judge_still(row: Reader, before: f32, after: f32) -> Verdict
    ensures { Judged (StillRow row before after) result }
{
    if row.letter == b's'
        && row.fields == 1
        && row.d == bits_of(before)
        && row.d == bits_of(after)
    {
        Verdict::Agrees
    } else {
        Verdict::Differs
    }
}
