// The rows of the list, judged one by one. `l NODES PILE SCRATCH` begins a store with the lengths of its tables. A part's letter with an
// index and a value puts a word there; with an index, a value and an answer it puts the word, audits, and puts the old one back. `a ANSWER`
// audits the store as it stands. An answer is 0 for yes, or a refusal's number.
use crate::parts;
use audit_verdicts::State;
use oracle_lists::rows::Reader;
use oracle_lists::tally::{Tally, Verdict};

// The list read so far: the row that is being read, the tally of those before it, and the store that they made, but for its arrays.
#[derive(Clone, Copy)]
pub struct Read {
    pub reader: Reader,
    pub tally: Tally,
    state: State,
}

// The same with the arrays.
#[derive(Clone, Copy)]
pub struct Comparison {
    pub read: Read,
    heads: [u32; 256],
    leaves: [u8; 32],
    nodes: [u32; 96],
    pile: [u32; 16],
}

impl Comparison {
    pub fn new() -> Comparison {
        Comparison {
            read: Read {
                reader: Reader::new(),
                tally: Tally::new(),
                state: State::new(),
            },
            heads: [0; 256],
            leaves: [0; 32],
            nodes: [0; 96],
            pile: [0; 16],
        }
    }

    // A part's letter, an index and a value. The scalars are put in `after`.
    fn put(&mut self, row: Reader) -> Verdict {
        match row.letter {
            b't' => parts::total_placed(row.c),
            b'h' => parts::put(&mut self.heads, row.c, row.d),
            b'b' => parts::put_leaf(&mut self.leaves, row.c, row.d),
            b'n' => parts::put(&mut self.nodes, row.c, row.d),
            b'p' => parts::put(&mut self.pile, row.c, row.d),
            _ => Verdict::Differs,
        }
    }

    // A part's letter, an index, a value and an answer; or the lengths of a new store.
    fn spoil(&mut self, state: State, row: Reader) -> Verdict {
        let (i, v, said) = (row.b, row.c, row.d);
        let heads = &mut self.heads;
        let leaves = &mut self.leaves;
        let nodes = &mut self.nodes;
        let pile = &mut self.pile;
        match row.letter {
            b't' => parts::spoil_total(state, i, v, said, heads, leaves, nodes, pile),
            b'h' => parts::spoil_head(state, i, v, said, heads, leaves, nodes, pile),
            b'b' => parts::spoil_leaf(state, i, v, said, heads, leaves, nodes, pile),
            b'n' => parts::spoil_node(state, i, v, said, heads, leaves, nodes, pile),
            b'p' => parts::spoil_spare(state, i, v, said, heads, leaves, nodes, pile),
            b'l' => Verdict::Agrees,
            _ => Verdict::Differs,
        }
    }

    // A whole row.
    fn judge_row(&mut self, state: State, row: Reader) -> Verdict {
        match (row.letter, row.fields) {
            (_, 3) => self.spoil(state, row),
            (_, 2) => self.put(row),
            (b'a', 1) => audit_verdicts::judge(
                state,
                row.d,
                &self.heads,
                &self.leaves,
                &self.nodes,
                &self.pile,
            ),
            _ => Verdict::Differs,
        }
    }

    // One byte more of what was read; where it ends a row, the row is judged, and counted.
    fn feed(&mut self, read: Read, byte: u8) -> Read {
        let reader = read.reader.feed(byte);
        if reader.is_whole() {
            let verdict = self.judge_row(read.state, reader);
            return Read {
                reader,
                tally: read.tally.count(verdict),
                state: after(read.state, reader),
            };
        }
        Read { reader, ..read }
    }

    // All of the bytes, in order. What was read goes from turn to turn and is put back behind the last of them: put back behind each it took a third
    // more time.
    pub fn feed_all(&mut self, bytes: &[u8]) {
        let mut read = self.read;
        for byte in bytes {
            read = self.feed(read, *byte);
        }
        self.read = read;
    }
}

// The store after a whole row, but for its arrays: with new lengths, or with a scalar put.
fn after(state: State, row: Reader) -> State {
    match (row.letter, row.fields) {
        (b'l', 3) => State {
            nodes: row.b,
            pile: row.c,
            scratch: row.d,
            ..state
        },
        (b't', 2) => parts::put_total(state, row.c, row.d),
        _ => state,
    }
}
