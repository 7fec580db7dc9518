// Fill, level and peak as lines. Where a reading was refused a line is broken off, and begins anew with the next reading.
use crate::places;
use crate::readings::{Point, Read};
use journal_lines::Lines;
use pictures::svg::{Hundredths, Length};

// Whether a line is being drawn: no value beside it hangs on that.
#[derive(Clone, Copy)]
struct Pen {
    down: bool,
}

// A letter of a path, and the number behind it.
fn letter(name: &[u8], n: u32, out: &mut Lines) {
    out.put(name);
    Hundredths(n).put(out);
}

fn point(name: &[u8], x: u32, y: u32, out: &mut Lines) {
    letter(name, x, out);
    letter(b" ", y, out);
}

impl Pen {
    // Broken off at x.
    fn lift(&mut self, x: u32, out: &mut Lines) {
        if self.down {
            letter(b"H", x, out);
            self.down = false;
        }
    }

    // Begun at a place, if it is not being drawn.
    fn lower(&mut self, x: u32, y: u32, out: &mut Lines) {
        if !self.down {
            point(b"M", x, y, out);
            self.down = true;
        }
    }
}

// How a line goes on at the height of a call's reading: in a step from one edge to the next, or from the middle of one call to the middle of the next.
fn step_on(n: u32, calls: u32, y: u32, out: &mut Lines) {
    letter(b"V", y, out);
    letter(b"H", places::end(n, calls), out);
}

fn slope_on(n: u32, calls: u32, y: u32, out: &mut Lines) {
    point(b"L", places::middle(n, calls), y, out);
}

// A line of one number of each reading.
fn draw<H: Fn(Read) -> u32, G: Fn(u32, u32, u32, &mut Lines)>(
    opened: &[u8],
    height: H,
    go_on: G,
    calls: u32,
    points: &[Point],
    out: &mut Lines,
)
    requires height { H.IsAlwaysCallable height }
    requires go_on { G.IsAlwaysCallable go_on }
{
    out.put(opened);
    let mut pen = Pen { down: false };
    for (n, point) in (0..calls).zip(points.iter()) {
        let x = places::edge(n, calls);
        match point.reading {
            None => pen.lift(x, out),
            Some(read) => {
                let y = places::down(height(read));
                pen.lower(x, y, out);
                go_on(n, calls, y, out);
            }
        }
    }
    pen.lift(places::LEFT + places::WIDTH, out);
    out.put(b"'/>\n");
}

// The peak last, so that its dashes are seen on the level where that is its own peak.
pub fn draw_all(calls: u32, points: &[Point], out: &mut Lines) {
    let fill = b"<path class='fill' d='";
    draw(fill, |read| read.fill, step_on, calls, points, out);
    let level = b"<path class='level' d='";
    draw(level, |read| read.level, slope_on, calls, points, out);
    let peak = b"<path class='peak' d='";
    draw(peak, |read| read.peak, slope_on, calls, points, out);
}
