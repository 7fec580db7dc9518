// A record written into bytes that are lent.
ghost use Rattle.std.specs.Prelude.{◌≡◌, ◌++◌, ◌+◌, ◌≤◌, leb, length};
ghost use Rattle.std.proofs.lemmas.List.Edits.{sets};
ghost use Rattle.journal.specs.Bytes.{in_bytes};
ghost use Rattle.journal.specs.Writing.{record_of, Written};

use crate::entry::NoRoom;
use calls::Call;

// A function for each of two sizes: std's methods on them share no trait.
fn put16(out: &mut [u8], at: usize, n: u16)
    requires { at + 2 ≤ length out.old }
    ensures { out.new ≡ sets out.old at (in_bytes 2 n) }
{
    let [low, high] = n.to_le_bytes();
    out[at] = low;
    out[at + 1] = high;
}

fn put32(out: &mut [u8], at: usize, n: u32)
    requires { at + 4 ≤ length out.old }
    ensures { out.new ≡ sets out.old at (in_bytes 4 n) }
{
    let [first, second, third, fourth] = n.to_le_bytes();
    out[at] = first;
    out[at + 1] = second;
    out[at + 2] = third;
    out[at + 3] = fourth;
}

// The length of what follows, and the kind.
fn put_front(out: &mut [u8], at: usize, len: u16, kind: u16)
    requires { at + 4 ≤ length out.old }
    ensures { out.new ≡ sets out.old at (in_bytes 2 len ++ in_bytes 2 kind) }
{
    put16(out, at, len);
    put16(out, at + 2, kind);
}

// A record with one field.
fn put_one(out: &mut [u8], at: usize, kind: u16, field: u32)
    requires { at + 8 ≤ length out.old }
    ensures { out.new ≡ sets out.old at ((in_bytes 2 6 ++ in_bytes 2 kind) ++ in_bytes 4 field) }
{
    put_front(out, at, 6, kind);
    put32(out, at + 4, field);
}

// And with two.
fn put_two(out: &mut [u8], at: usize, kind: u16, first: u32, second: u32)
    requires { at + 12 ≤ length out.old }
    ensures { out.new
        ≡ sets out.old at (((in_bytes 2 10 ++ in_bytes 2 kind) ++ in_bytes 4 first) ++ in_bytes 4 second) }
{
    put_front(out, at, 10, kind);
    put32(out, at + 4, first);
    put32(out, at + 8, second);
}

// How many bytes a call's record has.
pub fn bytes_of(call: Call) -> usize
    ensures { result ≡ length (record_of call) }
{
    match call {
        Call::Take(_) => 8,
        Call::HandBack(_) => 12,
        Call::SetUp(_, _) => 12,
        Call::Reset => 4,
    }
}

// A call's record, where there is room for it.
fn put(call: Call, out: &mut [u8], at: usize)
    requires { at + length (record_of call) ≤ length out.old }
    ensures { out.new ≡ sets out.old at (record_of call) }
{
    match call {
        Call::Take(size) => put_one(out, at, 1, size.0),
        Call::HandBack(span) => put_two(out, at, 2, span.metadata.0, span.offset),
        Call::SetUp(size, count) => put_two(out, at, 3, size.0, count),
        Call::Reset => put_front(out, at, 2, 4),
    }
}

// As many bytes have room from a place on.
fn has_room(n: usize, at: usize, wanted: usize) -> bool
    ensures { result ≡ leb (at + wanted) n }
{
    if n < wanted {
        return false;
    }
    at <= n - wanted
}

// The call's record at a place, or nothing where it has too little room; the place behind it.
pub fn write(call: Call, out: &mut [u8], at: usize) -> Result<usize, NoRoom>
    ensures { Written call out.old at result out.new }
{
    let wanted = bytes_of(call);
    if !has_room(out.len(), at, wanted) {
        return Err(NoRoom);
    }
    put(call, out, at);
    Ok(at + wanted)
}
