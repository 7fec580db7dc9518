// Draws the journal on standard input as an SVG of the fill gauge over its calls: `readings` makes the calls and reads the gauge after each, `curves` draws
// fill, level and peak, `marks` where the store did not change and where a reading was refused, `places` says where a call stands, and `frame` draws what
// stands around them. What reads the journal, how many calls there are to draw, and the elements of an SVG, are in pictures.
#![tactic(auto)]

mod curves;
mod frame;
mod marks;
mod places;
mod readings;

use journal_lines::Lines;
use pictures::counting::Counted;
use pictures::picture;
use readings::Point;

// What is marked lies below the curves.
fn draw(counted: Counted, bytes: &[u8], out: &mut Lines) {
    let calls = counted.calls;
    let mut all = [Point::BLANK; 1000];
    let points = &mut all[..(calls as usize).min(1000)];
    readings::read_all(bytes, points);
    frame::begin(counted, out);
    marks::draw_all(calls, points, out);
    curves::draw_all(calls, points, out);
}

fn main() {
    picture::of_input(draw);
}
