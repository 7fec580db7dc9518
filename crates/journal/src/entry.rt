// What stands at a place of a journal, and what comes of writing a record.
ghost use Rattle.std.specs.Prelude.{◌≡◌};
ghost use Rattle.journal.specs.Refusals.{broken_number, wrote_number};

use calls::Call;

// Why a record cannot be read; the replay ends there.
#[derive(Clone, Copy)]
pub enum Broken {
    // 13: fewer bytes stand than its length names, or fewer than four
    Cut,
    // 14
    UnknownKind,
    // 15: a length below two, or another than its kind has
    WrongLength,
}

impl Broken {
    // Document 02's number.
    pub fn number(self) -> u32
        ensures { result ≡ broken_number self }
    {
        let why = self;
        match why {
            Broken::Cut => 13,
            Broken::UnknownKind => 14,
            Broken::WrongLength => 15,
        }
    }
}

// A call that was read, and the place of the next record.
#[derive(Clone, Copy)]
pub struct Record {
    pub call: Call,
    pub next: usize,
}

// What stands at a place: a record, or none where no byte is left.
pub type Entry = Result<Option<Record>, Broken>;

// Too little room to write a record, and nothing is written.
#[derive(Clone, Copy)]
pub struct NoRoom;

// Document 02's number for what came of writing a record; 0 where it is written.
pub fn number(written: Result<usize, NoRoom>) -> u32
    ensures { result ≡ wrote_number written }
{
    match written {
        Ok(_) => 0,
        Err(_) => 16,
    }
}
