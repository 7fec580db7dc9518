// Journals that are drawn and then damaged. oracle/README.md says how, and the oracle draws the same.
use answers::{Allocation, Handle};
use calls::Call;
use small_float::Size;

// What is drawn hangs on it alone; each draw goes on to another.
#[derive(Drop)]
pub struct Seed(pub u32);

impl Seed {
    fn below(&mut self, limit: u32) -> u32 {
        self.0 = draws::next(self.0);
        draws::below(self.0, limit)
    }

    fn word(&mut self) -> u32 {
        let word = draws::word(self.0);
        self.0 = draws::next(draws::next(self.0));
        word
    }

    // A word with a drawn number of its high bits gone.
    fn any_size(&mut self) -> u32 {
        let whole = self.word();
        whole >> (self.below(32) % 32)
    }

    // Bad counts as often as good ones.
    fn count(&mut self) -> u32 {
        match self.below(8) {
            0 => 0,
            1 => 1,
            2 => 1025,
            3 => 1048577,
            _ => 2 + self.below(40) % 40,
        }
    }

    fn set_up(&mut self) -> Call {
        let size = self.any_size();
        Call::SetUp(Size(size), self.count())
    }

    fn take(&mut self) -> Call {
        let size = if self.below(4) == 0 {
            self.any_size()
        } else {
            self.below(60)
        };
        Call::Take(Size(size))
    }

    fn back_of_words(&mut self) -> Call {
        let record = self.word();
        Call::HandBack(span(record, self.word()))
    }

    fn back_of_small(&mut self) -> Call {
        let record = self.below(8);
        Call::HandBack(span(record, self.below(60)))
    }

    fn hand_back(&mut self, last: Allocation) -> Call {
        match self.below(8) {
            0 => self.back_of_words(),
            1 => self.back_of_small(),
            2 => back_beside(last),
            3 | 4 => Call::HandBack(span(self.below(8), 0)),
            _ => Call::HandBack(last),
        }
    }

    fn any_call(&mut self, last: Allocation) -> Call {
        match self.below(16) {
            0 => self.set_up(),
            1 => Call::Reset,
            2..=9 => self.take(),
            _ => self.hand_back(last),
        }
    }

    // The first call is a setup, seven times in eight.
    fn first_call(&mut self, last: Allocation) -> Call {
        if self.below(8) == 0 {
            self.any_call(last)
        } else {
            self.set_up()
        }
    }
}

// The span that a take would get if nothing had come back and every take was granted, and the one that the last take would have got. Hand-backs are
// drawn near the last, for a record and an offset drawn apart hardly ever agree.
#[derive(Clone, Copy)]
struct Spans {
    next: Allocation,
    last: Allocation,
}

fn span(record: u32, offset: u32) -> Allocation {
    Allocation {
        offset,
        metadata: Handle(record),
    }
}

// One behind where the last take's span starts: a live record that starts elsewhere, if that take was granted there.
fn back_beside(last: Allocation) -> Call {
    Call::HandBack(span(last.metadata.0, last.offset.wrapping_add(1)))
}

impl Spans {
    fn at_start() -> Spans {
        let first = span(0, 0);
        Spans {
            next: first,
            last: first,
        }
    }

    // The same after a call that was drawn.
    fn after(self, call: Call) -> Spans {
        match call {
            Call::Take(size) => {
                let last = self.next;
                let record = last.metadata.0.wrapping_add(1);
                Spans {
                    next: span(record, last.offset.wrapping_add(size.0)),
                    last,
                }
            }
            Call::HandBack(_) => self,
            Call::SetUp(_, _) | Call::Reset => Spans::at_start(),
        }
    }
}

// A journal of up to twelve calls; how many bytes it has.
pub fn draw(seed: &mut Seed, journal: &mut [u8]) -> usize {
    let calls = 1 + seed.below(12) % 12;
    let mut len = 0;
    let mut spans = Spans::at_start();
    for i in 0..calls {
        let call = if i == 0 {
            seed.first_call(spans.last)
        } else {
            seed.any_call(spans.last)
        };
        spans = spans.after(call);
        // a record that has no room is left out
        len = journal::writing::write(call, journal, len).unwrap_or(len);
    }
    len
}

// Another byte at a drawn place: any, 255, or one more than it was.
fn spoil(seed: &mut Seed, what: u32, journal: &mut [u8], len: usize) {
    let i = seed.below((len % 65536) as u32) as usize;
    if journal.len() <= i {
        return;
    }
    journal[i] = match what {
        1 => (seed.below(256) % 256) as u8,
        2 => 255,
        _ => journal[i].wrapping_add(1),
    };
}

// One damage: a cut, or another byte. An empty journal stays as it is.
fn damage_once(seed: &mut Seed, journal: &mut [u8], len: usize) -> usize {
    if len == 0 {
        return len;
    }
    let what = seed.below(4);
    if what == 0 {
        return seed.below((len % 65536) as u32 + 1) as usize;
    }
    spoil(seed, what, journal, len);
    len
}

// Up to three damages; how many bytes are left.
pub fn damage(seed: &mut Seed, journal: &mut [u8], len: usize) -> usize {
    let mut left = len;
    for _ in 0..seed.below(4) {
        left = damage_once(seed, journal, left);
    }
    left
}
