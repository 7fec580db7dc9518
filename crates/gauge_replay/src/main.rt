// Replays the journal on standard input, on tables for 1,024 records, and reads the fill gauge after each call. A line is what `replay` prints for the call
// (the refusal's number or 0, then a granted take's offset and record), in 18 places, a bar, and the reading in the columns of gauge_lines: fill, level,
// peak, and the net change of live units; or `refused` and the number. One gauge is begun at 0 and passed from reading to reading. A header comes first.
// A record that cannot be read is a last line with its number alone, 13, 14 or 15: no call was made, so nothing is read.
#![tactic(auto)]

use answers::Refusal;
use calls::Answer;
use gauge::{Reading, Watch};
use journal_input::Window;
use journal_lines::Lines;
use journal_text::writing;
use records::totals::Totals;
use replaying::Made;

// Where the journal is read next, the store's scalars, and the gauge.
#[derive(Clone, Copy)]
struct Replay {
    window: Window,
    totals: Totals,
    watch: Watch,
}

// A text in 18 places: the longest answer, a grant of record 1,023 at an offset of ten digits, has 17.
fn put_left(text: &[u8], out: &mut Lines) {
    out.put(text);
    gauge_lines::blanks(18usize.saturating_sub(text.len()), out);
}

fn put_header(out: &mut Lines) {
    put_left(b"answer", out);
    out.put(b"| ");
    gauge_lines::header(out);
    out.put(b"\n");
}

// A line for a call.
fn put_line(answer: Answer, reading: Result<Reading, Refusal>, out: &mut Lines) {
    let mut line = [0u8; 32];
    let n = writing::line_of_answer(answer, &mut line);
    put_left(journal_lines::front(&line, n), out);
    out.put(b"| ");
    gauge_lines::columns(reading, out);
    out.put(b"\n");
}

// One record more, and a reading after its call; where the replay goes on, if it does.
fn turn(
    replay: Replay,
    buffer: &mut [u8],
    out: &mut Lines,
    bin_indices: &mut [u32; 256],
    used_bins: &mut [u8; 32],
    nodes: &mut [u32],
    free_nodes: &mut [u32],
) -> Option<Replay> {
    let window = journal_input::refill(replay.window, buffer);
    let stepped = replaying::step(
        journal_lines::front(buffer, window.end),
        window.at,
        replay.totals,
        bin_indices,
        used_bins,
        nodes,
        free_nodes,
    );
    let totals = stepped.totals;
    match stepped.outcome {
        Ok(Some(Made { answer, next })) => {
            let watch = replay.watch;
            let taken = gauging::read_gauge(
                totals,
                watch,
                bin_indices,
                used_bins,
                nodes,
                free_nodes,
            );
            let reading = taken.answer;
            let kept = taken.watch;
            put_line(answer, reading, out);
            Some(Replay {
                window: window.moved(next),
                totals,
                watch: kept,
            })
        }
        Ok(None) => None,
        Err(why) => {
            out.last_line(why);
            None
        }
    }
}

// The journal to its end. A proved loop has to end, and nothing says that the input does: so records are counted, up to a number that no run reaches.
fn run(
    buffer: &mut [u8; 262144],
    out: &mut Lines,
    nodes: &mut [u32; 8192],
    free_nodes: &mut [u32; 1024],
) {
    let mut bin_indices = [0u32; 256];
    let mut used_bins = [0u8; 32];
    let mut replay = Replay {
        window: Window::new(),
        totals: Totals::zeros(),
        watch: Watch::begun(),
    };
    put_header(out);
    for _ in 0..u64::MAX {
        let gone_on = turn(
            replay,
            buffer,
            out,
            &mut bin_indices,
            &mut used_bins,
            nodes,
            free_nodes,
        );
        let Some(next) = gone_on else {
            return out.flush();
        };
        replay = next;
    }
}

fn main() {
    let mut buffer = [0u8; 262144];
    let mut out = Lines::new();
    let mut nodes = [0u32; 8192];
    let mut free_nodes = [0u32; 1024];
    run(&mut buffer, &mut out, &mut nodes, &mut free_nodes);
}
