// The rows of the list, one by one. `g LEVEL PEAK LAST` sets the gauge. `t COUNT NODES PILE` gives the head's count and the lengths of the tables from now
// on. `r TIMES SIZE FREE` makes so many readings, of a store of this size with this free total. The others say what the last reading gave, and are judged.
use crate::counts::Counts;
use crate::forms::Form;
use call_verdicts::both;
use oracle_lists::rows::Reader;
use oracle_lists::tally::{Tally, Verdict};
use records::totals::Totals;

// The words of the array of zeros.
pub const WORDS: usize = 8192;

// The head's count, the tables' lengths, and what each form has.
#[derive(Clone, Copy)]
struct State {
    count: u32,
    nodes: usize,
    pile: usize,
    in_place: Form,
    by_value: Form,
}

// The list read so far.
#[derive(Clone, Copy)]
pub struct Comparison {
    pub reader: Reader,
    pub tally: Tally,
    pub counts: Counts,
    state: State,
}

// A row of readings: so many in both forms; none is made if a table is to be longer than the array.
fn readings(mut state: State, row: Reader, zeros: &[u32]) -> State {
    let (Some(nodes), Some(pile)) = (zeros.get(..state.nodes), zeros.get(..state.pile)) else {
        return state;
    };
    let t = Totals::zeros()
        .with_size(row.c)
        .with_max_allocs(state.count)
        .with_free_storage(row.d);
    for _ in 0..row.b {
        state.in_place = state.in_place.in_place(t, nodes, pile);
        state.by_value = state.by_value.by_value(t, nodes, pile);
    }
    state
}

// The state after a row that asks; any other changes nothing.
fn after(state: State, row: Reader, zeros: &[u32]) -> State {
    match (row.letter, row.fields) {
        (b'r', 3) => readings(state, row, zeros),
        (b't', 3) => State {
            count: row.b,
            nodes: row.c as usize,
            pile: row.d as usize,
            ..state
        },
        (b'g', 3) => State {
            in_place: Form::set(row.b, row.c, row.d),
            by_value: Form::set(row.b, row.c, row.d),
            ..state
        },
        _ => state,
    }
}

// A row that asks agrees if it has three numbers; lengths that the array has not do not agree.
fn judge_row(state: State, row: Reader) -> Verdict {
    match row.letter {
        b'g' | b'r' => Verdict::from(row.fields == 3),
        b't' if WORDS < row.c as usize || WORDS < row.d as usize => Verdict::Differs,
        b't' => Verdict::from(row.fields == 3),
        _ => both(state.in_place.judge(row), state.by_value.judge(row)),
    }
}

impl Comparison {
    pub fn new() -> Comparison {
        Comparison {
            reader: Reader::new(),
            tally: Tally::new(),
            counts: Counts::default(),
            state: State {
                count: 0,
                nodes: 0,
                pile: 0,
                in_place: Form::set(0, 0, 0),
                by_value: Form::set(0, 0, 0),
            },
        }
    }

    // One byte more; where it ends a row, the row is judged.
    fn feed(&mut self, byte: u8, zeros: &[u32]) {
        let reader = self.reader.feed(byte);
        self.reader = reader;
        if reader.is_whole() {
            let verdict = judge_row(self.state, reader);
            self.tally = self.tally.count(verdict);
            self.counts = self.counts.count(reader, verdict);
            self.state = after(self.state, reader, zeros);
        }
    }

    // All of the bytes, in order.
    pub fn feed_all(&mut self, bytes: &[u8], zeros: &[u32]) {
        for byte in bytes {
            self.feed(*byte, zeros);
        }
    }
}
