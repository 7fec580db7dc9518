// A journal replayed, a record at a time: what stands at a place is read, and a call is made on lent tables.
#![tactic(auto)]

ghost use Rattle.tables.specs.Calls.{edition32};
ghost use Rattle.records.specs.InWords.{words_of};
ghost use Rattle.journal.specs.Reading.{read_at};
ghost use Rattle.replaying.specs.Steps.{Steps};

use calls::Answer;
use journal::entry::{Broken, Record};
use records::totals::Totals;

// The answer of the call that stood at a place, and the place of the next record.
#[derive(Clone, Copy)]
pub struct Made {
    pub answer: Answer,
    pub next: usize,
}

// What comes of a place: the call that stood there is made, or none where no byte was left; no call could be read, and the replay ends there.
pub type Outcome = Result<Option<Made>, Broken>;

// What came of it, and the head's scalars after it.
#[derive(Clone, Copy)]
pub struct Stepped {
    pub outcome: Outcome,
    pub totals: Totals,
}

// A replay begins at place 0 with `Totals::zeros()`, as no store stands yet, and goes on with the totals and at the place that each step gives.
pub fn step(
    bytes: &[u8],
    at: usize,
    t: Totals,
    bin_indices: &mut [u32; 256],
    used_bins: &mut [u8; 32],
    nodes: &mut [u32],
    free_nodes: &mut [u32],
) -> Stepped
    ensures { Steps edition32
        (words_of t bin_indices.old used_bins.old nodes.old free_nodes.old)
        (words_of result.totals bin_indices.new used_bins.new nodes.new free_nodes.new)
        (read_at bytes.now at) result.outcome }
{
    match journal::reading::read(bytes, at) {
        Ok(Some(Record { call, next })) => {
            let called = calling::make(call, t, bin_indices, used_bins, nodes, free_nodes);
            let answer = called.answer;
            let totals = called.totals;
            Stepped {
                outcome: Ok(Some(Made { answer, next })),
                totals,
            }
        }
        Ok(None) => Stepped {
            outcome: Ok(None),
            totals: t,
        },
        Err(why) => Stepped {
            outcome: Err(why),
            totals: t,
        },
    }
}
