// A journal replayed, a record at a time, on words that are lent.
ghost use Rattle.std.specs.Prelude.{◌≡◌};
ghost use Rattle.tables.specs.Calls.{edition32};
ghost use Rattle.journal.specs.Reading.{read_at};
ghost use Rattle.replaying.specs.Steps.{Steps};
ghost use Rattle.host_values.specs.Kept.{words_in};
ghost use Rattle.host_values.specs.Tells.{Tells};
ghost use Rattle.host_journal.specs.Stepped.{answer_told, stopped_told, step_told};

use calls::Answer;
use records::totals::Totals;
use replaying::{Made, Outcome};

// What came of a record: no byte was left (`ended` is 1); it could not be read (`broken` is its number); or its call was made, with the refusal's number,
// and `granted` 1 beside offset and record where a take was granted. `next` is the place of the next record. C reads it, so it is
// numbers and no option.
#[repr(C)]
#[derive(Clone, Copy)]
pub struct Step {
    pub ended: u32,
    pub broken: u32,
    pub number: u32,
    pub granted: u32,
    pub offset: u32,
    pub handle: u32,
    pub next: usize,
}

fn answered(answer: Answer, next: usize) -> Step
    ensures { result ≡ answer_told answer next }
{
    let done = Step {
        ended: 0,
        broken: 0,
        number: 0,
        granted: 0,
        offset: 0,
        handle: 0,
        next,
    };
    match answer {
        Ok(None) => done,
        Ok(Some(span)) => Step {
            granted: 1,
            offset: span.offset,
            handle: span.metadata.0,
            ..done
        },
        Err(why) => Step {
            number: why.number(),
            ..done
        },
    }
}

// No call was made.
fn stopped(ended: u32, broken: u32) -> Step
    ensures { result ≡ stopped_told ended broken }
{
    Step {
        ended,
        broken,
        number: 0,
        granted: 0,
        offset: 0,
        handle: 0,
        next: 0,
    }
}

fn flat(outcome: Outcome) -> Step
    ensures { result ≡ step_told outcome }
{
    match outcome {
        Ok(Some(Made { answer, next })) => answered(answer, next),
        Ok(None) => stopped(1, 0),
        Err(why) => stopped(0, why.number()),
    }
}

// The record at a place is read and its call made. A replay begins at place 0 with scalars of zeros.
#[unsafe(no_mangle)]
pub extern "C" fn ds_replay_step(
    bytes: &[u8],
    at: usize,
    scalars: &mut [u32; Totals::SCALARS],
    bins: &mut [u32; 256],
    leaves: &mut [u8; 32],
    nodes: &mut [u32],
    pile: &mut [u32],
) -> Step
    ensures { Tells step_told (Steps edition32
        (words_in scalars.old bins.old leaves.old nodes.old pile.old)
        (words_in scalars.new bins.new leaves.new nodes.new pile.new)
        (read_at bytes.now at)) result }
{
    let t = Totals::of_array(scalars);
    let stepped = replaying::step(bytes, at, t, bins, leaves, nodes, pile);
    let totals = stepped.totals;
    let outcome = stepped.outcome;
    host_values::keep(totals, scalars);
    flat(outcome)
}
