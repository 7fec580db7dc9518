// Draws the journal on standard input as an SVG of the store over its calls, a column a call: `columns` draws them one after the other, `widths` says how
// wide, `bars` draws the live regions, `frame` what stands around them. What reads the journal, how many calls there are to draw, and the elements of an
// SVG, are in pictures.
#![tactic(auto)]

mod bars;
mod columns;
mod frame;
mod widths;

use journal_lines::Lines;
use pictures::counting::Counted;
use pictures::picture;

fn draw(counted: Counted, bytes: &[u8], out: &mut Lines) {
    frame::begin(counted, out);
    columns::draw_all(counted.calls, bytes, out);
}

fn main() {
    picture::of_input(draw);
}
