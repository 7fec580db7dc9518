// A journal of any length from standard input, seen through a window: bytes that have been read lie in a buffer, and a record is looked for among those
// from `at` to `end`. A reading hangs on no more than 65,537 bytes (`windowed` in journal/specs/Claims.antt): where as many are at hand, or all that are
// left, what stands at `at` is what stands there in the whole journal.
#![tactic(auto)]

ghost use Rattle.std.specs.Prelude.{◌≡◌, ◌≤◌, length};
ghost use Rattle.journal_input.specs.Slid.{slid};

use streams::STDIN_FILENO;

// The longest record: its length's two bytes, and 65,535 more.
pub const LONGEST: usize = 65537;

// How long a buffer is best.
pub const BUFFER: usize = 262144;

#[derive(Clone, Copy)]
pub struct Window {
    // the place of the next record
    pub at: usize,
    // behind the last byte that was read
    pub end: usize,
    // the input has not ended; where it has, the two places stand all the same, so no option holds them
    pub more: bool,
}

impl Window {
    pub fn new() -> Window {
        Window {
            at: 0,
            end: 0,
            more: true,
        }
    }

    // Of no input.
    fn nothing() -> Window
        ensures { result.end ≡ 0 }
    {
        Window {
            at: 0,
            end: 0,
            more: false,
        }
    }

    // The same, with the next record at another place.
    pub fn moved(self, at: usize) -> Window {
        Window { at, ..self }
    }

    // As many bytes have been read, or all, as a record can have.
    fn is_enough(self) -> bool {
        !self.more || self.end >= self.at && self.end - self.at >= LONGEST
    }
}

// The bytes from one place to another, at the front of the buffer.
#[tactic(auto, unfolding(crate::specs::Slid::slid))]
fn slide(buffer: &mut [u8], from: usize, to: usize)
    requires { (from ≤ to) × (to ≤ length buffer.old) }
    ensures { buffer.new ≡ slid from to buffer.old }
{
    buffer.copy_within(from..to, 0);
}

// The window with enough bytes in it to read the next record; its end is no further than the buffer's. The buffer is best `BUFFER` long, and has to be
// as long as the longest record.
pub fn refill(window: Window, buffer: &mut [u8]) -> Window
    ensures { result.end ≤ length buffer.old }
{
    let at = window.at;
    let end = window.end;
    if buffer.len() < end {
        return Window::nothing();
    }
    if window.is_enough() {
        return window;
    }
    if end < at {
        return Window::nothing();
    }
    slide(buffer, at, end);
    let rest = end - at;
    let n = io::read_full(STDIN_FILENO, &mut buffer[rest..]);
    Window {
        at: 0,
        end: rest + n,
        more: 0 < n,
    }
}
