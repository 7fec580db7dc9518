// Why nothing more is read, as it is told on standard error.
use journal::entry::NoRoom;
use journal_text::line::Fault;
use std::fmt;

// A line, by its number, was bad, or a write failed.
#[derive(Clone, Copy)]
pub enum Complaint {
    Fault(u64, Fault),
    // a line of more than 200 bytes
    Length(u64),
    Output,
}

// There is room for every record, so that none comes to this.
impl From<NoRoom> for Complaint {
    fn from(_full: NoRoom) -> Complaint {
        Complaint::Output
    }
}

fn text(fault: Fault) -> &'static str {
    match fault {
        Fault::UnknownWord => "the first word is none of setup, take, back and reset",
        Fault::MissingNumber => "a number is missing",
        Fault::NotANumber => "a number has something in it that is no digit",
        Fault::TooLarge => "a number is more than 32 bits hold (4294967295 is the largest)",
        Fault::TooMuch => "something stands behind the last number",
    }
}

impl fmt::Display for Complaint {
    fn fmt<W: fmt::Write>(&self, f: &mut fmt::Formatter<W>) -> fmt::Result {
        match *self {
            Complaint::Fault(line, fault) => write!(f, "line {line}: {}", text(fault)),
            Complaint::Length(line) => write!(f, "line {line}: it has more than 200 bytes"),
            Complaint::Output => f.write_str("the journal could not be written"),
        }
    }
}
