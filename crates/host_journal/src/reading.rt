// What stands at a place of a journal.
ghost use Rattle.std.specs.Prelude.{◌≡◌};
ghost use Rattle.journal.specs.Reading.{read_at};
ghost use Rattle.host_journal.specs.Read.{call_told, no_call, entry_told};

use calls::Call;
use journal::entry::Record;

// A call, and the place of the next record; the refusal's number; or neither, at the end. C reads it, so it is numbers and no option.
#[repr(C)]
#[derive(Clone, Copy)]
pub struct Entry {
    pub number: u32,
    pub kind: u32,
    pub first: u32,
    pub second: u32,
    pub next: usize,
}

fn no_call(number: u32) -> Entry
    ensures { result ≡ no_call number }
{
    Entry {
        number,
        kind: 0,
        first: 0,
        second: 0,
        next: 0,
    }
}

fn flat_call(call: Call, next: usize) -> Entry
    ensures { result ≡ call_told call next }
{
    let flat = Entry { next, ..no_call(0) };
    match call {
        Call::Take(size) => Entry {
            kind: 1,
            first: size.0,
            ..flat
        },
        // the record, then the offset
        Call::HandBack(span) => Entry {
            kind: 2,
            first: span.metadata.0,
            second: span.offset,
            ..flat
        },
        Call::SetUp(size, count) => Entry {
            kind: 3,
            first: size.0,
            second: count,
            ..flat
        },
        Call::Reset => Entry { kind: 4, ..flat },
    }
}

#[unsafe(no_mangle)]
pub extern "C" fn ds_journal_read(bytes: &[u8], at: usize) -> Entry
    ensures { result ≡ entry_told (read_at bytes.now at) }
{
    match journal::reading::read(bytes, at) {
        Ok(Some(Record { call, next })) => flat_call(call, next),
        Ok(None) => no_call(0),
        Err(why) => no_call(why.number()),
    }
}
