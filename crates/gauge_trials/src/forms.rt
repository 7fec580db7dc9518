// A reading in place and one by value, each with the gauge that its own form left. The store is a head of zeros but for its size, its count and its free
// total; its tables are parts of an array of zeros, of which a reading looks at the lengths alone.
use answers::Refusal;
use gauge::{Gauge, Reading, Taken, Watch};
use gauge_verdicts::{float_of, judge_kept, judge_refused, judge_still, judge_told};
use offset_allocator::head::Head;
use oracle_lists::rows::Reader;
use oracle_lists::tally::Verdict;
use records::totals::Totals;
use small_float::Size;

// What one form has: the level before the last reading, what that answered and what it left.
#[derive(Clone, Copy)]
pub struct Form {
    pub before: f32,
    pub answer: Result<Reading, Refusal>,
    pub watch: Watch,
}

impl Form {
    // A gauge of these bits, of which nothing was read yet.
    pub fn set(level: u32, peak: u32, last: u32) -> Form {
        Form {
            before: float_of(level),
            answer: Err(Refusal::NotLive),
            watch: Watch {
                gauge: Gauge {
                    level: float_of(level),
                    peak: float_of(peak),
                },
                last: Size(last),
            },
        }
    }

    fn after(self, taken: Taken) -> Form {
        let before = self.watch;
        let gauge = before.gauge;
        let answer = taken.answer;
        let watch = taken.watch;
        Form {
            before: gauge.level,
            answer,
            watch,
        }
    }

    pub fn in_place(self, t: Totals, nodes: &[u32], pile: &[u32]) -> Form {
        let bin_indices = [0u32; 256];
        let used_bins = [0u8; 32];
        let watch = self.watch;
        self.after(gauging::read_gauge(t, watch, &bin_indices, &used_bins, nodes, pile))
    }

    pub fn by_value(self, t: Totals, nodes: &[u32], pile: &[u32]) -> Form {
        let head = Head {
            totals: t,
            bin_indices: [0u32; 256],
            used_bins: [0u8; 32],
        };
        let watch = self.watch;
        self.after(gauging::read_gauge_of(head, watch, nodes, pile))
    }

    fn judge_answer(self, row: Reader) -> Verdict {
        let answer = self.answer;
        match answer {
            Ok(told) => { judge_told(row, told.fill, told.level, told.peak, told.net) }
            Err(why) => judge_refused(row, why.number()),
        }
    }

    fn judge_watch(self, row: Reader) -> Verdict {
        let watch = self.watch;
        let gauge = watch.gauge;
        let last = watch.last;
        judge_kept(row, gauge.level, gauge.peak, last.0)
    }

    fn judge_level(self, row: Reader) -> Verdict {
        let watch = self.watch;
        let gauge = watch.gauge;
        judge_still(row, self.before, gauge.level)
    }

    // A row of what a reading gave.
    pub fn judge(self, row: Reader) -> Verdict {
        match row.letter {
            b'k' => self.judge_watch(row),
            b's' => self.judge_level(row),
            _ => self.judge_answer(row),
        }
    }
}
