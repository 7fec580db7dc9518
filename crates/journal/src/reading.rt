// A record read from bytes that are lent.
ghost use Rattle.std.specs.Prelude.{◌≡◌, ◌+◌, ◌<◌, ◌≤◌, length, take, drop};
ghost use Rattle.journal.specs.Bytes.{number};
ghost use Rattle.journal.specs.Reading.{read_at, judged, call_of};

use crate::entry::{Broken, Entry, Record};
use answers::{Allocation, Handle};
use calls::Call;
use small_float::Size;

// The number of 16 bits at a place. A function for each of two sizes: std's methods on them share no trait.
fn get16(bytes: &[u8], at: usize) -> u32
    requires { at + 2 ≤ length bytes.now }
    ensures { (result ≡ number (take 2 (drop at bytes.now))) × (result < 65536) }
{
    u32::from(u16::from_le_bytes([bytes[at], bytes[at + 1]]))
}

// The number of 32 bits at a place.
fn get32(bytes: &[u8], at: usize) -> u32
    requires { at + 4 ≤ length bytes.now }
    ensures { result ≡ number (take 4 (drop at bytes.now)) }
{
    u32::from_le_bytes([bytes[at], bytes[at + 1], bytes[at + 2], bytes[at + 3]])
}

// A record by its kind, if its length is the one of its kind.
fn record_at(bytes: &[u8], at: usize, len: usize) -> Entry
    requires { (at + 4 ≤ length bytes.now) × (at + (2 + len) ≤ length bytes.now) }
    ensures { result ≡ judged len at (call_of (number (take 2 (drop 2 (drop at bytes.now)))) (drop at bytes.now)) }
{
    let call = match (get16(bytes, at + 2), len) {
        (1, 6) => Call::Take(Size(get32(bytes, at + 4))),
        (2, 10) => Call::HandBack(Allocation {
            metadata: Handle(get32(bytes, at + 4)),
            offset: get32(bytes, at + 8),
        }),
        (3, 10) => Call::SetUp(Size(get32(bytes, at + 4)), get32(bytes, at + 8)),
        (4, 2) => Call::Reset,
        (1..=4, _) => return Err(Broken::WrongLength),
        _ => return Err(Broken::UnknownKind),
    };
    Ok(Some(Record {
        call,
        next: at + (2 + len),
    }))
}

// What stands at a place.
pub fn read(bytes: &[u8], at: usize) -> Entry
    ensures { result ≡ read_at bytes.now at }
{
    let n = bytes.len();
    if n <= at {
        return Ok(None);
    }
    let left = n - at;
    if left < 4 {
        return Err(Broken::Cut);
    }
    let len = get16(bytes, at) as usize;
    if left - 2 < len {
        return Err(Broken::Cut);
    }
    if len < 2 {
        return Err(Broken::WrongLength);
    }
    record_at(bytes, at, len)
}
