// Replays the journal on standard input, on tables for 1,024 records, and prints a line for each call: the refusal's number or 0, then a granted take's
// offset and record. A record that cannot be read is a last line, 13, 14 or 15. What a line says is proved in journal_text, what a call answers in
// replaying; here bytes come in and lines go out.
#![tactic(auto)]

mod progress;

use journal_input::Window;
use journal_lines::Lines;
use records::totals::Totals;
use replaying::Made;

// Where the journal is read next, and the store's scalars.
#[derive(Clone, Copy)]
struct Replay {
    window: Window,
    totals: Totals,
}

// One record more; where the replay goes on, if it does.
fn turn(
    replay: Replay,
    buffer: &mut [u8],
    out: &mut Lines,
    bin_indices: &mut [u32; 256],
    used_bins: &mut [u8; 32],
    nodes: &mut [u32],
    free_nodes: &mut [u32],
) -> Option<Replay> {
    let window = journal_input::refill(replay.window, buffer);
    let stepped = replaying::step(
        journal_lines::front(buffer, window.end),
        window.at,
        replay.totals,
        bin_indices,
        used_bins,
        nodes,
        free_nodes,
    );
    match stepped.outcome {
        Ok(Some(Made { answer, next })) => {
            out.answer_line(answer);
            Some(Replay {
                window: window.moved(next),
                totals: stepped.totals,
            })
        }
        Ok(None) => None,
        Err(why) => {
            out.last_line(why);
            None
        }
    }
}

// The journal to its end. A proved loop has to end, and nothing says that the input does: so records are counted, up to a number that no run reaches.
fn run(
    rt: &impl Eprint,
    shown: bool,
    buffer: &mut [u8; 262144],
    out: &mut Lines,
    nodes: &mut [u32; 8192],
    free_nodes: &mut [u32; 1024],
) {
    let mut bin_indices = [0u32; 256];
    let mut used_bins = [0u8; 32];
    let mut replay = Replay {
        window: Window::new(),
        totals: Totals::zeros(),
    };
    for records in 0..u64::MAX {
        let gone_on = turn(
            replay,
            buffer,
            out,
            &mut bin_indices,
            &mut used_bins,
            nodes,
            free_nodes,
        );
        let Some(next) = gone_on else {
            out.flush();
            return progress::end(rt, shown);
        };
        replay = next;
        progress::show(rt, shown, records + 1);
    }
}

fn main(rt: HostRuntime) {
    let shown = progress::is_shown(rt.stderr());
    let mut buffer = [0u8; 262144];
    let mut out = Lines::new();
    let mut nodes = [0u32; 8192];
    let mut free_nodes = [0u32; 1024];
    run(
        &rt,
        shown,
        &mut buffer,
        &mut out,
        &mut nodes,
        &mut free_nodes,
    );
}
