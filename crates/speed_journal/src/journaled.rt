// A run through a journal: a buffer of records, begun anew where it is full.
use answers::{Allocation, Refusal};
use calls::{Answer, Call};
use driving::held;
use driving::progress::Draws;
use driving::rows::Plan;
use records::totals::Totals;
use small_float::Size;

#[derive(Clone, Copy)]
struct State {
    totals: Totals,
    draws: Draws,
    at: usize,
}

#[derive(Clone, Copy)]
struct Made {
    answer: Answer,
    totals: Totals,
    at: usize,
}

// The record's place: behind the last one, or at the front where it has no room.
fn written(call: Call, journal: &mut [u8], at: usize) -> usize {
    if journal::writing::write(call, journal, at).is_ok() {
        return at;
    }
    let _ = journal::writing::write(call, journal, 0);
    0
}

// A call written, read and made.
fn make(
    call: Call,
    t: Totals,
    at: usize,
    journal: &mut [u8],
    bin_indices: &mut [u32; 256],
    used_bins: &mut [u8; 32],
    nodes: &mut [u32],
    free_nodes: &mut [u32],
) -> Made {
    let place = written(call, journal, at);
    let stepped = replaying::step(journal, place, t, bin_indices, used_bins, nodes, free_nodes);
    let totals = stepped.totals;
    let outcome = stepped.outcome;
    match outcome {
        Ok(Some(replaying::Made { answer, next })) => Made {
            answer,
            totals,
            at: next,
        },
        Ok(None) | Err(_) => Made {
            answer: Ok(None),
            totals,
            at: 0,
        },
    }
}

// No take is answered with done.
fn of_take(answer: Answer) -> Result<Allocation, Refusal> {
    match answer {
        Ok(None) => Err(Refusal::Unsound),
        Ok(Some(span)) => Ok(span),
        Err(why) => Err(why),
    }
}

fn step(
    state: State,
    journal: &mut [u8; 65536],
    bin_indices: &mut [u32; 256],
    used_bins: &mut [u8; 32],
    nodes: &mut [u32; 1048576],
    free_nodes: &mut [u32; 131072],
    out: &mut [Allocation; 131072],
) -> State {
    let t = state.totals;
    let before = state.draws;
    let drawn = before.draw();
    if before.is_take() {
        let call = Call::Take(Size(drawn.size()));
        let made = make(
            call,
            t,
            state.at,
            journal,
            bin_indices,
            used_bins,
            nodes,
            free_nodes,
        );
        let totals = made.totals;
        let given = made.answer;
        let answer = of_take(given);
        held::keep(out, drawn.held, answer);
        let draws = drawn.answered(answer);
        return State {
            totals,
            draws,
            at: made.at,
        };
    }
    if drawn.held == 0 {
        return State {
            totals: t,
            draws: drawn,
            at: state.at,
        };
    }
    let span = held::swap_remove(out, drawn.held, drawn.place());
    let made = make(
        Call::HandBack(span),
        t,
        state.at,
        journal,
        bin_indices,
        used_bins,
        nodes,
        free_nodes,
    );
    let totals = made.totals;
    let draws = drawn.gone_back();
    State {
        totals,
        draws,
        at: made.at,
    }
}

fn run(
    plan: Plan,
    journal: &mut [u8; 65536],
    nodes: &mut [u32; 1048576],
    free_nodes: &mut [u32; 131072],
    out: &mut [Allocation; 131072],
) -> Draws {
    let mut bin_indices = [0u32; 256];
    let mut used_bins = [0u8; 32];
    let call = Call::SetUp(Size(plan.size), plan.records);
    let made = make(
        call,
        Totals::zeros(),
        0,
        journal,
        &mut bin_indices,
        &mut used_bins,
        nodes,
        free_nodes,
    );
    let totals = made.totals;
    let draws = Draws::new(plan.run);
    let mut state = State {
        totals,
        draws,
        at: made.at,
    };
    for _ in 0..plan.calls {
        state = step(
            state,
            journal,
            &mut bin_indices,
            &mut used_bins,
            nodes,
            free_nodes,
            out,
        );
    }
    state.draws
}

// A whole run, in tables for 131,072 records.
pub fn drive(plan: Plan) -> Draws {
    let mut journal = [0u8; 65536];
    let mut nodes = [0u32; 1048576];
    let mut free_nodes = [0u32; 131072];
    let mut out = [held::NO_SPAN; 131072];
    run(plan, &mut journal, &mut nodes, &mut free_nodes, &mut out)
}
