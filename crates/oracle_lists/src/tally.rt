// The verdicts on a list's rows, counted.
ghost use Rattle.std.specs.Prelude.{◌≡◌};
ghost use Rattle.oracle_lists.specs.Tally.{verdict_if, one_more, no_rows, counted};

use std::fmt;

// The row agrees with the port, shows a difference that docs/DIFFERENCES.md lists, or differs otherwise.
#[derive(Clone, Copy, PartialEq, Eq)]
pub enum Verdict {
    Agrees,
    Listed,
    Differs,
}

// A row agrees exactly if what it says holds, where no difference is listed.
impl From<bool> for Verdict {
    ghost from_gives = { λ holds v. v ≡ verdict_if holds };

    fn from(holds: bool) -> Verdict {
        if holds {
            Verdict::Agrees
        } else {
            Verdict::Differs
        }
    }
}

// The rows, counted by verdict, and the number of the first one that differs, from 1 on, if any does.
// A counter that has reached 2^64 - 1 stays there.
#[derive(Clone, Copy)]
pub struct Tally {
    pub rows: u64,
    pub agreed: u64,
    pub listed: u64,
    pub other: u64,
    pub first: Option<u64>,
}

// A counter's next number.
#[tactic(auto, unfolding(crate::specs::Tally::one_more))]
pub fn one_more(n: u64) -> u64
    ensures { result ≡ one_more n }
{
    n.saturating_add(1)
}

impl Tally {
    pub fn new() -> Tally
        ensures { result ≡ no_rows }
    {
        Tally {
            rows: 0,
            agreed: 0,
            listed: 0,
            other: 0,
            first: None,
        }
    }

    // The tally with one row more.
    #[tactic(auto, unfolding(crate::specs::Tally::counted))]
    pub fn count(self, verdict: Verdict) -> Tally
        ensures { result ≡ counted self verdict }
    {
        let rows = one_more(self.rows);
        match verdict {
            Verdict::Agrees => Tally {
                rows,
                agreed: one_more(self.agreed),
                ..self
            },
            Verdict::Listed => Tally {
                rows,
                listed: one_more(self.listed),
                ..self
            },
            Verdict::Differs => Tally {
                rows,
                other: one_more(self.other),
                first: self.first.or(Some(rows)),
                ..self
            },
        }
    }
}

// A line for each counter, and one for the first row that differs, with no line end after the last.
impl fmt::Display for Tally {
    fn fmt<W: fmt::Write>(&self, f: &mut fmt::Formatter<W>) -> fmt::Result {
        let Tally {
            rows,
            agreed,
            listed,
            other,
            first,
        } = *self;
        write!(
            f,
            "rows {rows}\nagreed {agreed}\nlisted differences {listed}\nother {other}"
        )?;
        if let Some(row) = first {
            write!(f, "\nfirst at row {row}")?;
        }
        Ok(())
    }
}
