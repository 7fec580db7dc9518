// A reading of the gauge as columns of a line, for the programs. The columns are right-aligned:
//   fill    4   in 256ths of the store, 0 to 256
//   level   9   in 256ths too, with three digits behind the point; what is behind them is cut
//   peak    9   likewise
//   net    12   the live units that came since the last reading: `+` where there are more, `-` where there are fewer, a bare 0 where there are as many
// A refused reading has `refused` and its number in their place.
#![tactic(auto)]

ghost use Rattle.std.specs.Prelude.{◌≡◌, unsigned_abs};

mod decimals;

use answers::Refusal;
pub use decimals::thousandths;
use gauge::Reading;
use journal_lines::Lines;

// So many blanks, 20 at most.
pub fn blanks(n: usize, out: &mut Lines) {
    out.put(journal_lines::front(b"                    ", n));
}

// A number behind a sign, at the end of so many places.
fn signed(sign: &[u8], n: u64, places: usize, out: &mut Lines) {
    let mut digits = [0u8; 20];
    let count = io::decimal(n, &mut digits);
    blanks(places.saturating_sub(count).saturating_sub(sign.len()), out);
    out.put(sign);
    out.put(&digits[..count]);
}

fn number(n: u64, places: usize, out: &mut Lines) {
    signed(b"", n, places, out);
}

// The last digit.
fn digit(n: u64) -> u8 {
    b'0' + (n % 10) as u8
}

// A number with three digits behind the point, at the end of nine places.
fn fraction(x: f32, out: &mut Lines) {
    let n = thousandths(x);
    number(n / 1000, 5, out);
    out.put(&[b'.', digit(n / 100), digit(n / 10), digit(n)]);
}

// How far a number is from 0.
fn magnitude(n: i64) -> u64
    ensures { result ≡ unsigned_abs n }
{
    n.unsigned_abs()
}

fn net(n: i64, out: &mut Lines) {
    if n < 0 {
        return signed(b"-", magnitude(n), 12, out);
    }
    if 0 < n {
        return signed(b"+", magnitude(n), 12, out);
    }
    signed(b"", 0, 12, out);
}

fn read(reading: Reading, out: &mut Lines) {
    number(u64::from(reading.fill), 4, out);
    fraction(reading.level, out);
    fraction(reading.peak, out);
    net(reading.net, out);
}

fn refused(number: u32, out: &mut Lines) {
    out.put(b"refused ");
    out.number(u64::from(number));
}

pub fn columns(answer: Result<Reading, Refusal>, out: &mut Lines) {
    match answer {
        Ok(reading) => read(reading, out),
        Err(why) => refused(why.number(), out),
    }
}

// What stands over the columns.
pub fn header(out: &mut Lines) {
    out.put(b"fill    level     peak         net");
}
