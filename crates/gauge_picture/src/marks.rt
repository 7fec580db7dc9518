// What is marked of each call: below the plot, in a row each, whether the store did not change and whether the reading was refused, and the call's number
// where there is room; in the plot a band where a reading was refused, and a line where the store was set up or reset.
ghost use Rattle.std.specs.Prelude.{◌<◌};

use crate::places;
use crate::readings::{Deed, Point};
use journal_lines::Lines;
use pictures::svg;
use pictures::svg::{Area, Hundredths, Pixels};

// A bar as wide as the call; wide ones are parted by a gap.
fn bar(class: &[u8], from: u32, to: u32, y: u32, out: &mut Lines) {
    let width = to.saturating_sub(from);
    let area = Area {
        x: Hundredths(from),
        y: Hundredths(y),
        width: Hundredths(if width < 300 { width } else { width - 100 }),
        height: Hundredths(900),
    };
    svg::rect(class, area, out);
}

fn band(from: u32, to: u32, out: &mut Lines) {
    let area = Area {
        x: Hundredths(from),
        y: Hundredths(places::FOOT - places::HEIGHT),
        width: Hundredths(to.saturating_sub(from)),
        height: Hundredths(places::HEIGHT),
    };
    svg::rect(b"gap", area, out);
}

// The reading was refused, or found as many live units as the last one.
fn mark(point: Point, from: u32, to: u32, out: &mut Lines) {
    match point.reading {
        None => {
            band(from, to, out);
            bar(b"refused", from, to, places::FOOT + 2200, out);
        }
        Some(read) => {
            if read.same {
                bar(b"same", from, to, places::FOOT + 700, out);
            }
        }
    }
}

fn line(x: u32, out: &mut Lines) {
    let area = Area {
        x: Hundredths(x),
        y: Hundredths(places::FOOT - places::HEIGHT - 500),
        width: Hundredths(100),
        height: Hundredths(places::HEIGHT + 500),
    };
    svg::rect(b"deed", area, out);
}

// A line, and what was done over it, unless that would lie on the name before it; from where on the next name has room.
fn named_line(name: &[u8], x: u32, free: u32, out: &mut Lines) -> u32 {
    line(x, out);
    if x < free {
        return free;
    }
    let y = Hundredths(places::FOOT - places::HEIGHT - 800);
    svg::open_text(b"name", Pixels(x / 100), y, out);
    out.put(name);
    svg::close_text(out);
    x.saturating_add(3400)
}

fn deed(point: Point, x: u32, free: u32, out: &mut Lines) -> u32 {
    match point.deed {
        Some(Deed::SetUp) => named_line(b"setup", x, free, out),
        Some(Deed::Reset) => named_line(b"reset", x, free, out),
        None => free,
    }
}

// Every so many calls have a number.
fn step(calls: u32) -> u32
    ensures { 0 < result }
{
    match calls {
        0..=25 => 1,
        26..=130 => 5,
        131..=300 => 10,
        _ => 50,
    }
}

fn number(n: u32, calls: u32, out: &mut Lines) {
    let shown = n.saturating_add(1);
    if shown % step(calls) == 0 {
        let x = Pixels(places::middle(n, calls) / 100);
        let y = Hundredths(places::FOOT + 4600);
        svg::number_at(b"number", x, y, shown, out);
    }
}

pub fn draw_all(calls: u32, points: &[Point], out: &mut Lines) {
    // from where on a name has room
    let mut free = 0;
    for (n, point) in (0..calls).zip(points.iter()) {
        let from = places::edge(n, calls);
        mark(*point, from, places::end(n, calls), out);
        free = deed(*point, from, free, out);
        number(n, calls, out);
    }
}
