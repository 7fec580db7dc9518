// The calls made one after the other on tables for 1,024 records, and a column drawn for each.
use crate::bars::{Bars, End};
use crate::{frame, widths};
use answers::{Allocation, Refusal};
use calls::{Answer, Call};
use journal::entry::Record;
use journal_lines::Lines;
use pictures::svg;
use pictures::svg::{Area, Hundredths, Pixels};
use records::totals::Totals;

// The number of the column and where it begins, how wide columns are, the size of the store before the call, and whether a scale stands, which
// says nothing of the others.
#[derive(Clone, Copy)]
struct Sheet {
    column: u32,
    x: u32,
    width: u32,
    size: u32,
    scaled: bool,
}

impl Sheet {
    // The next column, of a store of this size.
    fn next(&mut self, size: u32) {
        self.column = self.column.saturating_add(1);
        self.x = self.x.saturating_add(self.width);
        self.size = size;
    }

    // Wide columns are parted by a gap; bars run across it.
    fn parted(&self) -> Pixels {
        if self.width < widths::WIDE {
            return Pixels(self.width);
        }
        Pixels(self.width.saturating_sub(1))
    }

    // The store as if all of it were free; its bars are drawn over it.
    fn store(&self, size: u32, out: &mut Lines) {
        if size == 0 {
            return;
        }
        let area = Area {
            x: Pixels(self.x),
            y: Hundredths(frame::TOP),
            width: self.parted(),
            height: Hundredths(frame::LENGTH),
        };
        svg::rect(b"store", area, out);
    }

    // The middle of the column.
    fn middle(&self) -> u32 {
        self.x.saturating_add(self.width / 2)
    }

    // A red tick at the foot, and the refusal's number where it has room.
    fn refusal(&self, why: Refusal, out: &mut Lines) {
        let area = Area {
            x: Pixels(self.x),
            y: Hundredths(frame::TOP + frame::LENGTH + 300),
            width: self.parted(),
            height: Hundredths(600),
        };
        svg::rect(b"tick", area, out);
        if 5 <= self.width {
            let down = Hundredths(frame::TOP + frame::LENGTH + 2000);
            svg::number_at(b"mark", Pixels(self.middle()), down, why.number(), out);
        }
    }

    // The call's text below the column, downwards, where columns are wide enough.
    fn call_text(&self, call: Call, out: &mut Lines) {
        let x = Pixels(self.middle().saturating_sub(4));
        let down = Hundredths(frame::TOP + frame::LENGTH + 2600);
        svg::open_downward(b"call", x, down, out);
        out.call(call);
        svg::close_text(out);
    }

    // Else the number of every fiftieth column.
    fn column_number(&self, out: &mut Lines) {
        let number = self.column.saturating_add(1);
        if number % 50 == 0 {
            let down = Hundredths(frame::TOP + frame::LENGTH + 3800);
            svg::number_at(b"column", Pixels(self.middle()), down, number, out);
        }
    }

    fn below(&self, call: Call, out: &mut Lines) {
        if self.width < widths::WIDE {
            return self.column_number(out);
        }
        self.call_text(call, out);
    }

    // A line where a store begins, and over it the store's size and its count of records.
    fn begin_store(&self, size: u32, count: u32, out: &mut Lines) {
        let area = Area {
            x: Pixels(self.x),
            y: Hundredths(frame::TOP - 1600),
            width: Pixels(1),
            height: Hundredths(frame::LENGTH + 1600),
        };
        svg::rect(b"line", area, out);
        let x = Pixels(self.x.saturating_add(4));
        svg::open_text(b"size", x, Hundredths(frame::TOP - 600), out);
        out.put(b"store ");
        out.number(u64::from(size));
        out.put(b", ");
        out.number(u64::from(count));
        out.put(b" records");
        svg::close_text(out);
    }

    // The first store's scale.
    fn scale(&mut self, size: u32, out: &mut Lines) {
        if !self.scaled {
            frame::scale(size, out);
            self.scaled = true;
        }
    }

    // What is done without a span: a store begins where it was a setup.
    fn done(&mut self, call: Call, out: &mut Lines) {
        if let Call::SetUp(size, count) = call {
            self.begin_store(size.0, count, out);
            self.scale(size.0, out);
        }
    }

    fn granted(&self, span: Allocation, nodes: &[u32; 8192], bars: &mut Bars) {
        bars.begin(nodes, span.metadata.0, span.offset, self.x);
    }

    // What the answer adds to the column.
    fn answer(
        &mut self,
        call: Call,
        answer: Answer,
        nodes: &[u32; 8192],
        bars: &mut Bars,
        out: &mut Lines,
    ) {
        match answer {
            Ok(None) => self.done(call, out),
            Ok(Some(span)) => self.granted(span, nodes, bars),
            Err(why) => self.refusal(why, out),
        }
    }

    // The column of a call: first the bars that end before it.
    fn draw(
        &mut self,
        call: Call,
        answer: Answer,
        totals: Totals,
        nodes: &[u32; 8192],
        bars: &mut Bars,
        out: &mut Lines,
    ) {
        let end = End {
            x: self.x,
            size: self.size,
            count: totals.max_allocs,
        };
        bars.end_all(nodes, end, out);
        self.store(totals.size, out);
        self.answer(call, answer, nodes, bars, out);
        self.below(call, out);
        self.next(totals.size);
    }
}

// The calls' columns, and behind the last of them the bars that are left end.
fn draw_on(
    mut sheet: Sheet,
    calls: u32,
    bytes: &[u8],
    bin_indices: &mut [u32; 256],
    used_bins: &mut [u8; 32],
    nodes: &mut [u32; 8192],
    free_nodes: &mut [u32; 1024],
    out: &mut Lines,
) {
    let mut bars = Bars::new();
    let mut totals = Totals::zeros();
    let mut at = 0;
    for _ in 0..calls {
        let Ok(Some(Record { call, next })) = journal::reading::read(bytes, at) else {
            break;
        };
        let called = calling::make(call, totals, bin_indices, used_bins, nodes, free_nodes);
        let answer = called.answer;
        totals = called.totals;
        at = next;
        sheet.draw(call, answer, totals, nodes, &mut bars, out);
    }
    let end = End {
        x: sheet.x,
        size: sheet.size,
        count: 0,
    };
    bars.end_all(nodes, end, out);
}

// The first so many calls.
pub fn draw_all(calls: u32, bytes: &[u8], out: &mut Lines) {
    let mut bin_indices = [0u32; 256];
    let mut used_bins = [0u8; 32];
    let mut nodes = [0u32; 8192];
    let mut free_nodes = [0u32; 1024];
    let blank = Sheet {
        column: 0,
        x: frame::LEFT,
        width: widths::column_width(calls),
        size: 0,
        scaled: false,
    };
    draw_on(
        blank,
        calls,
        bytes,
        &mut bin_indices,
        &mut used_bins,
        &mut nodes,
        &mut free_nodes,
        out,
    );
}
