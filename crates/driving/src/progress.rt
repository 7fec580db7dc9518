// What is drawn and what came of it so far, the same in every form of the calls.
use answers::{Allocation, Refusal};
use std::fmt;

// The kinds of run.
#[derive(Clone, Copy, PartialEq, Eq)]
pub enum Run {
    // As often a take as a return, by the toss of a coin; what goes back is drawn.
    Toss,
    // So many takes, then as many returns, the last one first.
    Bursts,
    // So many spans are out, and then one that is drawn is replaced by another again and again.
    LiveSet,
    // Spans are taken until one is refused, and then replaced as in a live set; a refusal makes the set smaller.
    Full,
    // The same, but what goes back is drawn from half a word.
    Other,
}

// The number of a kind in a row of the input.
impl From<u32> for Run {
    fn from(number: u32) -> Run {
        match number {
            1 => Run::Toss,
            2 => Run::Bursts,
            3 => Run::LiveSet,
            4 => Run::Full,
            _ => Run::Other,
        }
    }
}

pub const BURST: u32 = 64;

pub const LIVE: u32 = 256;

pub const LARGEST: u32 = 2000;

// As many spans as there can be records are out at most.
pub const MOST: u32 = 1048576;

// What a refused take adds to the sum.
pub const REFUSED: u32 = 4294967295;

// The kind of run; the number of spans below which the next call takes, for which a toss does not ask; the seed; the number of spans that are out;
// the sum of all answers.
#[derive(Clone, Copy)]
pub struct Draws {
    pub run: Run,
    pub top: u32,
    pub seed: u32,
    pub held: u32,
    pub sum: u32,
}

fn mix(sum: u32, answer: u32) -> u32 {
    sum.wrapping_mul(31).wrapping_add(answer)
}

fn first_top(run: Run) -> u32 {
    match run {
        Run::Bursts => BURST,
        Run::LiveSet => LIVE,
        Run::Toss | Run::Full | Run::Other => MOST,
    }
}

impl Draws {
    pub fn new(run: Run) -> Draws {
        Draws {
            run,
            top: first_top(run),
            seed: 1,
            held: 0,
            sum: 0,
        }
    }

    // The next call is a take; otherwise it hands back.
    pub fn is_take(self) -> bool {
        match self.run {
            Run::Toss => draws::below(self.seed, 2) == 0,
            _ => self.held < self.top,
        }
    }

    pub fn draw(self) -> Draws {
        Draws {
            seed: draws::next(self.seed),
            ..self
        }
    }

    // The size that was drawn for a take.
    pub fn size(self) -> u32 {
        1 + draws::high_half(self.seed) % LARGEST
    }

    // The place of the span that goes back, where any is out: the last, or one that was drawn, of many from a whole word.
    pub fn place(self) -> u32 {
        let held = self.held;
        if held == 0 {
            return 0;
        }
        match self.run {
            Run::Bursts => held - 1,
            Run::Full => draws::word(self.seed) % held,
            _ => draws::below(self.seed, held),
        }
    }

    // A grant is out, and counts. After the last take of a burst the returns begin.
    fn granted(self, offset: u32, record: u32) -> Draws {
        let held = if self.held < MOST {
            self.held + 1
        } else {
            self.held
        };
        let over = self.run == Run::Bursts && held == BURST;
        Draws {
            top: if over { 0 } else { self.top },
            held,
            sum: mix(mix(self.sum, offset), record),
            ..self
        }
    }

    fn refused(self) -> Draws {
        Draws {
            top: self.held,
            sum: mix(self.sum, REFUSED),
            ..self
        }
    }

    // What a take was answered.
    pub fn answered(self, answer: Result<Allocation, Refusal>) -> Draws {
        match answer {
            Ok(span) => {
                let handle = span.metadata;
                self.granted(span.offset, handle.0)
            }
            Err(_) => self.refused(),
        }
    }

    // After the last return of a burst the takes begin.
    pub fn gone_back(self) -> Draws {
        let held = self.held.saturating_sub(1);
        let over = self.run == Run::Bursts && held == 0;
        Draws {
            top: if over { BURST } else { self.top },
            held,
            ..self
        }
    }
}

// Two lines, with no line end after the second.
impl fmt::Display for Draws {
    fn fmt<W: fmt::Write>(&self, f: &mut fmt::Formatter<W>) -> fmt::Result {
        let Draws { sum, held, .. } = *self;
        write!(f, "sum {sum}\nheld {held}")
    }
}
