// What came of the calls, counted, and of the journals: those that came to their end, and those that broke off. And the sum of all that is printed, which
// hangs on every line and on their order.
use answers::Refusal;
use calls::Answer;
use journal::entry::Broken;
use std::fmt;

// What ends a journal in the sum. The oracle's sum takes the same number (oracle/README.md), so it stays a number and that one.
const END: u32 = 4294967295;

// The sum with a number more.
pub fn mix(sum: u32, n: u32) -> u32 {
    sum.wrapping_mul(31).wrapping_add(n)
}

// One more.
fn raise(count: &mut u64) {
    *count = count.saturating_add(1);
}

// The calls that were refused, by why.
#[derive(Clone, Copy, Default)]
struct Refused {
    bad_count: u64,
    table_too_short: u64,
    no_spare_record: u64,
    no_region: u64,
    not_live: u64,
    unsound: u64,
    starts_elsewhere: u64,
}

impl Refused {
    fn count(&mut self, why: Refusal) {
        match why {
            Refusal::BadCount => raise(&mut self.bad_count),
            Refusal::TableTooShort => raise(&mut self.table_too_short),
            Refusal::NoSpareRecord => raise(&mut self.no_spare_record),
            Refusal::NoRegion => raise(&mut self.no_region),
            Refusal::NotLive => raise(&mut self.not_live),
            Refusal::Unsound => raise(&mut self.unsound),
            Refusal::StartsElsewhere => raise(&mut self.starts_elsewhere),
        }
    }
}

// The journals that broke off, by why.
#[derive(Clone, Copy, Default)]
struct BrokenOff {
    cut: u64,
    unknown_kind: u64,
    wrong_length: u64,
}

impl BrokenOff {
    fn count(&mut self, why: Broken) {
        match why {
            Broken::Cut => raise(&mut self.cut),
            Broken::UnknownKind => raise(&mut self.unknown_kind),
            Broken::WrongLength => raise(&mut self.wrong_length),
        }
    }
}

#[derive(Clone, Copy, Default)]
pub struct Counts {
    pub sum: u32,
    // the journals that came to their end
    ended: u64,
    broken_off: BrokenOff,
    granted: u64,
    refused: Refused,
    // what else was done
    done: u64,
}

impl Counts {
    pub fn new() -> Counts {
        Counts::default()
    }

    fn mix(&mut self, n: u32) {
        self.sum = mix(self.sum, n);
    }

    pub fn of_answer(&mut self, answer: Answer) {
        match answer {
            Ok(None) => {
                raise(&mut self.done);
                self.mix(0);
            }
            Ok(Some(span)) => {
                raise(&mut self.granted);
                self.mix(0);
                self.mix(span.offset);
                self.mix(span.metadata.0);
            }
            Err(why) => {
                self.refused.count(why);
                self.mix(why.number());
            }
        }
    }

    pub fn of_end(&mut self) {
        raise(&mut self.ended);
        self.mix(END);
    }

    pub fn of_broken(&mut self, why: Broken) {
        self.broken_off.count(why);
        self.mix(why.number());
        self.mix(END);
    }
}

// A line for each count, with no line end after the last; a refusal and what breaks a journal off by the documents' numbers.
impl fmt::Display for Counts {
    fn fmt<W: fmt::Write>(&self, f: &mut fmt::Formatter<W>) -> fmt::Result {
        writeln!(f, "end {}", self.ended)?;
        writeln!(f, "13 {}", self.broken_off.cut)?;
        writeln!(f, "14 {}", self.broken_off.unknown_kind)?;
        writeln!(f, "15 {}", self.broken_off.wrong_length)?;
        writeln!(f, "granted {}", self.granted)?;
        writeln!(f, "refused 1 {}", self.refused.bad_count)?;
        writeln!(f, "refused 2 {}", self.refused.table_too_short)?;
        writeln!(f, "refused 3 {}", self.refused.no_spare_record)?;
        writeln!(f, "refused 4 {}", self.refused.no_region)?;
        writeln!(f, "refused 5 {}", self.refused.not_live)?;
        writeln!(f, "refused 6 {}", self.refused.unsound)?;
        writeln!(f, "refused 8 {}", self.refused.starts_elsewhere)?;
        write!(f, "done {}", self.done)
    }
}
