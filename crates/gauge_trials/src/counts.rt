// What the rows that agree were about.
use oracle_lists::rows::Reader;
use oracle_lists::tally::{Verdict, one_more};

// A counter that is full stays so.
#[derive(Clone, Copy, Default)]
pub struct Counts {
    pub readings: u64,
    pub told: u64,
    pub short: u64,
    pub unsound: u64,
    pub kept: u64,
    pub still: u64,
}

impl Counts {
    fn agreed(mut self, row: Reader) -> Counts {
        match row.letter {
            b'r' => self.readings = self.readings.saturating_add(u64::from(row.b)),
            b'u' | b'd' => self.told = one_more(self.told),
            b'x' if row.d == 2 => self.short = one_more(self.short),
            b'x' if row.d == 6 => self.unsound = one_more(self.unsound),
            b'k' => self.kept = one_more(self.kept),
            b's' => self.still = one_more(self.still),
            _ => (),
        }
        self
    }

    // One row more. What differs is counted by the tally.
    pub fn count(self, row: Reader, verdict: Verdict) -> Counts {
        match verdict {
            Verdict::Agrees => self.agreed(row),
            Verdict::Listed | Verdict::Differs => self,
        }
    }
}
