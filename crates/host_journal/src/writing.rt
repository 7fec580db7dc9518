// A record written into bytes that are lent.
ghost use Rattle.std.specs.Prelude.{◌≡◌};
ghost use Rattle.host_values.specs.Tells.{Tells};
ghost use Rattle.host_journal.specs.Written.{named, flat_wrote, wrote_told, Writes};

use answers::{Allocation, Handle};
use calls::Call;
use journal::entry::NoRoom;
use small_float::Size;

// The refusal's number, or the place behind the record. C reads it, so it is numbers and no result.
#[repr(C)]
#[derive(Clone, Copy)]
pub struct Wrote {
    pub number: u32,
    pub next: usize,
}

// A call that came as three numbers; none where its kind is none of the four.
#[tactic(auto, unfolding(crate::specs::Written::named))]
fn call_of(kind: u32, first: u32, second: u32) -> Option<Call>
    ensures { result ≡ named kind first second }
{
    match kind {
        1 => Some(Call::Take(Size(first))),
        // the record, then the offset
        2 => Some(Call::HandBack(Allocation {
            offset: second,
            metadata: Handle(first),
        })),
        3 => Some(Call::SetUp(Size(first), second)),
        4 => Some(Call::Reset),
        _ => None,
    }
}

fn flat(outcome: Result<usize, NoRoom>) -> Wrote
    ensures { result ≡ flat_wrote outcome }
{
    match outcome {
        Ok(next) => Wrote { number: 0, next },
        Err(_) => Wrote {
            number: 16,
            next: 0,
        },
    }
}

// The call's record at a place. With too little room, and with an unknown kind, nothing is written.
#[unsafe(no_mangle)]
pub extern "C" fn ds_journal_write(
    kind: u32,
    first: u32,
    second: u32,
    out: &mut [u8],
    at: usize,
) -> Wrote
    ensures { Tells wrote_told (Writes out.old at out.new (named kind first second)) result }
{
    match call_of(kind, first, second) {
        Some(call) => flat(journal::writing::write(call, out, at)),
        None => Wrote {
            number: 14,
            next: 0,
        },
    }
}
