// A picture from the journal on standard input.
use crate::counting::{self, Counted};
use journal_lines::Lines;
use streams::STDIN_FILENO;

// Draws the bytes of the journal, the first of them if it has more than a picture can show; the SVG that `draw` begins is ended.
pub fn of_input<D: Fn(Counted, &[u8], &mut Lines)>(draw: D)
    requires { D.IsAlwaysCallable draw }
{
    let mut buffer = [0u8; 262144];
    let mut out = Lines::new();
    let n = io::read_full(STDIN_FILENO, &mut buffer);
    let bytes = journal_lines::front(&buffer, n);
    draw(counting::count(bytes), bytes, &mut out);
    out.put(b"</svg>\n");
    out.flush();
}
