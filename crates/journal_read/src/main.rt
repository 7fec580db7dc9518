// Prints the journal on standard input, of any length, as the text that `journal_write` reads, a line a call. Where a record is refused, which ends a
// journal, a last line says so as a comment.
#![tactic(auto)]

use calls::Call;
use journal::entry::{Broken, Record};
use journal_input::Window;
use journal_lines::Lines;

fn print_call(call: Call, out: &mut Lines) {
    out.call(call);
    out.put(b"\n");
}

// A comment, so that the text can be written again.
fn print_refusal(why: Broken, out: &mut Lines) {
    out.put(b"# refusal ");
    out.broken(why);
    out.put(b"\n");
}

// The record that stands next; the window behind it, where there is one.
fn step(before: Window, bytes: &mut [u8], out: &mut Lines) -> Option<Window> {
    let window = journal_input::refill(before, bytes);
    match journal::reading::read(journal_lines::front(bytes, window.end), window.at) {
        Ok(Some(Record { call, next })) => {
            print_call(call, out);
            Some(window.moved(next))
        }
        Ok(None) => None,
        Err(why) => {
            print_refusal(why, out);
            None
        }
    }
}

// A proved loop has to end, and nothing says that the input does: so records are counted, up to a number that no run reaches.
fn print_all(bytes: &mut [u8; 262144], out: &mut Lines) {
    let mut window = Window::new();
    for _ in 0..u64::MAX {
        let Some(next) = step(window, bytes, out) else {
            return out.flush();
        };
        window = next;
    }
}

fn main() {
    let mut bytes = [0u8; 262144];
    let mut out = Lines::new();
    print_all(&mut bytes, &mut out);
}
