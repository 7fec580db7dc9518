// What is told of the day: the seed of its draws, the digest of what came of its calls, and how often each thing came.
ghost use Rattle.std.specs.Prelude.{◌<◌};

use std::fmt;

// How often each thing came.
#[derive(Clone, Copy, Default)]
pub struct Counts {
    pub on_chip: u32,
    pub external: u32,
    pub refused: u32,
    pub as_3: u32,
    pub as_4: u32,
    pub back: u32,
    pub filled: u32,
    pub too_long: u32,
    pub read: u32,
    pub stale: u32,
    pub shown_again: u32,
    pub wrong_name: u32,
    pub differing: u32,
}

#[derive(Clone, Copy)]
pub struct Told {
    seed: u32,
    pub digest: u32,
    pub counts: Counts,
}

// Once more; a count that is full stays.
pub fn raise(count: &mut u32) {
    *count = count.saturating_add(1);
}

impl Told {
    pub fn at_first() -> Told {
        Told {
            seed: 1,
            digest: 0,
            counts: Counts::default(),
        }
    }

    // The next draw, below n.
    pub fn draw(&mut self, n: u32) -> u32
        requires { 0 < n }
        ensures { result < n }
    {
        self.seed = draws::next(self.seed);
        draws::below(self.seed, n)
    }

    pub fn fold(&mut self, n: u32) {
        self.digest = self.digest.wrapping_mul(31).wrapping_add(n);
    }

    pub fn fold_bytes(&mut self, bytes: &[u8]) {
        for byte in bytes {
            self.fold(u32::from(*byte));
        }
    }

    // A program here cannot stop with a message: what is not as it must be is counted.
    pub fn hold(&mut self, as_it_must: bool) {
        if !as_it_must {
            raise(&mut self.counts.differing);
        }
    }
}

// A line for each count, with no line end after the last.
impl fmt::Display for Told {
    fn fmt<W: fmt::Write>(&self, f: &mut fmt::Formatter<W>) -> fmt::Result {
        let counts = self.counts;
        writeln!(f, "on-chip {}", counts.on_chip)?;
        writeln!(f, "external {}", counts.external)?;
        writeln!(f, "refused {}", counts.refused)?;
        writeln!(f, "as 3 {}", counts.as_3)?;
        writeln!(f, "as 4 {}", counts.as_4)?;
        writeln!(f, "back {}", counts.back)?;
        writeln!(f, "filled {}", counts.filled)?;
        writeln!(f, "too long {}", counts.too_long)?;
        writeln!(f, "read {}", counts.read)?;
        writeln!(f, "stale {}", counts.stale)?;
        writeln!(f, "shown again {}", counts.shown_again)?;
        writeln!(f, "wrong name {}", counts.wrong_name)?;
        writeln!(f, "digest {}", self.digest)?;
        write!(f, "differing {}", counts.differing)
    }
}
