// The bars of live regions. A bar is drawn when its region is live no more, or the journal ends.
ghost use Rattle.std.specs.Prelude.{◌<◌, ◌≤◌};

use crate::frame;
use journal_lines::Lines;
use pictures::svg;
use pictures::svg::{Area, Hundredths, Pixels};
use records::nodes;
use records::nodes::Field;

const RECORDS: usize = 1024;

// Where a region's bar begins, and the region's offset and length.
#[derive(Clone, Copy)]
struct Bar {
    x: u32,
    offset: u32,
    length: u32,
}

// The bar of each record's region, where it is live.
#[derive(Drop)]
pub struct Bars {
    bars: [Option<Bar>; 1024],
}

// Where bars end that end now, in a store of which size, and how many records the store has after the call.
#[derive(Clone, Copy)]
pub struct End {
    pub x: u32,
    pub size: u32,
    pub count: u32,
}

// Where an offset lies, from the top of the store down.
fn down(offset: u64, size: u32) -> u32
    ensures { result ≤ 48000 }
{
    let whole = u64::from(size);
    if whole <= offset {
        return 48000;
    }
    (offset * 48000 / whole).min(48000) as u32
}

// The place of a bar that begins so far down: what begins at the end of the store is a line above it.
fn place(top: u32) -> u32 {
    frame::TOP + top.min(47800)
}

// From one place to another; two pixels at least, so that a region of length 0 is seen too, and where there is room a gap below, by which two bars of
// one colour are told apart.
fn height(top: u32, bottom: u32) -> u32 {
    match bottom.saturating_sub(top) {
        0..=199 => 200,
        whole @ 200..=300 => whole,
        whole => whole - 60,
    }
}

// The record's number in its bar, and the region's length behind it, as far as there is room.
fn label(record: u32, length: u32, area: Area<Pixels>, out: &mut Lines) {
    if area.height.0 < 1200 || area.width.0 < 22 {
        return;
    }
    svg::open_text(
        b"label",
        Pixels(area.x.0.saturating_add(3)),
        Hundredths(area.y.0.saturating_add(1050)),
        out,
    );
    out.number(u64::from(record));
    if 72 <= area.width.0 {
        out.put(b": ");
        out.number(u64::from(length));
    }
    svg::close_text(out);
}

impl Bar {
    // Its place and extent, from its first column to the one behind its last.
    fn area(self, end: End) -> Area<Pixels> {
        let start = u64::from(self.offset);
        let top = down(start, end.size);
        let bottom = down(start + u64::from(self.length), end.size);
        Area {
            x: Pixels(self.x),
            y: Hundredths(place(top)),
            width: Pixels(end.x.saturating_sub(self.x)),
            height: Hundredths(height(top, bottom)),
        }
    }

    fn draw(self, record: u32, end: End, out: &mut Lines) {
        let area = self.area(end);
        svg::coloured(record % 12, area, out);
        label(record, self.length, area, out);
    }
}

impl Bars {
    pub fn new() -> Bars {
        Bars { bars: [None; 1024] }
    }

    // A region that was granted: its bar begins at x.
    pub fn begin(&mut self, nodes: &[u32; 8192], record: u32, offset: u32, x: u32) {
        let r = record as usize;
        if r < RECORDS {
            let length = nodes::shown(nodes, record, Field::DataSize);
            self.bars[r] = Some(Bar { x, offset, length });
        }
    }

    // The record's bar ends, if it has one and its region is live no more: its word `used` says so, or the store has fewer records, none after a
    // setup that was refused.
    fn end_one(&mut self, nodes: &[u32; 8192], record: u32, end: End, out: &mut Lines)
        requires { «record» < 1024 }
    {
        let r = record as usize;
        // for most records that is all: the bar itself is read where it ends
        if self.bars[r].is_none() {
            return;
        }
        if record < end.count && nodes::shown(nodes, record, Field::Used) != 0 {
            return;
        }
        if let Some(bar) = self.bars[r] {
            bar.draw(record, end, out);
        }
        self.bars[r] = None;
    }

    pub fn end_all(&mut self, nodes: &[u32; 8192], end: End, out: &mut Lines) {
        for record in 0..1024 {
            self.end_one(nodes, record, end, out);
        }
    }
}
