// A store that is audited: its scalars, and how much of each table is lent. The arrays stand beside it, long enough for the list's stores.
#![tactic(auto)]

ghost use Rattle.std.specs.Prelude.{◌≡◌};
ghost use Rattle.answers.specs.Answers.{audit_says};
ghost use Rattle.audit_verdicts.specs.Audited.{no_store_yet, number_in, number_with, audit_number, OnlyIf};

use answers::Refusal;
use oracle_lists::tally::Verdict;
use records::totals::Totals;

#[derive(Clone, Copy)]
pub struct State {
    pub totals: Totals,
    pub nodes: u32,
    pub pile: u32,
    pub scratch: u32,
}

// What stands in every word of the scratch before an audit.
pub const BEFORE: u32 = 7;

// What the lengths give where the arrays are too short for them: the number of no answer. No Option, since a row may say this number, and what the
// program answers to it may not change (`audit_number`).
const NO_AUDIT: u32 = 4294967295;

impl State {
    pub fn new() -> State
        ensures { result ≡ no_store_yet }
    {
        State {
            totals: Totals::zeros(),
            nodes: 0,
            pile: 0,
            scratch: 0,
        }
    }
}

// 0 for yes, or the refusal's number.
fn number(answer: Result<(), Refusal>) -> u32
    ensures { result ≡ number_in (audit_says answer) }
{
    match answer {
        Ok(()) => 0,
        Err(why) => why.number(),
    }
}

// The audit of the tables as long as they are lent.
fn audit(
    state: State,
    heads: &[u32; 256],
    leaves: &[u8; 32],
    nodes: &[u32],
    pile: &[u32],
    scratch: &mut [u32],
) -> u32
    ensures { result ≡ number_with state heads.now leaves.now nodes.now pile.now
        scratch.old }
{
    let totals = state.totals;
    let n = state.nodes as usize;
    let p = state.pile as usize;
    let s = state.scratch as usize;
    if nodes.len() < n {
        return NO_AUDIT;
    }
    if pile.len() < p {
        return NO_AUDIT;
    }
    if scratch.len() < s {
        return NO_AUDIT;
    }
    number(auditing::audit(
        totals,
        heads,
        leaves,
        &nodes[..n],
        &pile[..p],
        &mut scratch[..s],
    ))
}

// How many words of the scratch an audit clears: as many as there are records, but none where the count or a length is refused.
fn cleared(count: u32, number: u32) -> u32 {
    if number == 2 || count < 2 || records::gate::MAX_RECORDS < count {
        0
    } else {
        count
    }
}

// A word of the scratch is as it must be: 0 if it is one of those, and otherwise as it was.
fn is_right(word: u32, i: usize, words: u32) -> bool {
    if i < words as usize {
        word == 0
    } else {
        word == BEFORE
    }
}

fn is_cleared(scratch: &[u32; 16], words: u32) -> bool {
    scratch
        .iter()
        .enumerate()
        .all(|(i, word)| is_right(*word, i, words))
}

// The audit's number is the one that is expected, and its scratch is left as it must be.
pub fn judge(
    state: State,
    expected: u32,
    heads: &[u32; 256],
    leaves: &[u8; 32],
    nodes: &[u32],
    pile: &[u32],
) -> Verdict
    ensures { OnlyIf result expected (audit_number state heads.now leaves.now nodes.now pile.now) }
{
    let mut scratch = [BEFORE; 16];
    let totals = state.totals;
    let found = audit(state, heads, leaves, nodes, pile, &mut scratch);
    if found != expected {
        return Verdict::Differs;
    }
    Verdict::from(is_cleared(&scratch, cleared(totals.max_allocs, found)))
}
