// What stands around the columns: the size of the sheet, its title and a scale of offsets.
use crate::widths;
use journal_lines::Lines;
use pictures::counting::Counted;
use pictures::svg::{Hundredths, Pixels};
use pictures::{heading, svg};

// Where the store begins, and how long it is drawn.
pub const LEFT: u32 = 84;

pub const TOP: u32 = 9000;

pub const LENGTH: u32 = 48000;

fn texts(out: &mut Lines) {
    out.put(b"text{font-family:sans-serif;font-size:11px;fill:#222}");
    out.put(b".title{font-size:17px;font-weight:bold}.size{font-weight:bold}");
    out.put(b".note{fill:#666}.scale{text-anchor:end}.label{font-size:10px}");
    out.put(
        b".mark{font-size:10px;fill:#c00;text-anchor:middle}.column{fill:#666;text-anchor:middle}\n",
    );
}

// The colours of twelve records; the thirteenth has the first one's again.
fn colours(out: &mut Lines) {
    out.put(b".store{fill:#f1f1ef}.line{fill:#222}.tick{fill:#c00}\n");
    out.put(b".c0{fill:#7fb2dc}.c1{fill:#f5b063}.c2{fill:#8cc68a}.c3{fill:#c7a0d8}");
    out.put(b".c4{fill:#ffd966}.c5{fill:#76ccc4}.c6{fill:#e39ab8}.c7{fill:#b9a07a}");
    out.put(b".c8{fill:#a3b0e6}.c9{fill:#bcd66a}.c10{fill:#a8b8bf}.c11{fill:#e0b48c}");
}

fn style(out: &mut Lines) {
    out.put(b"<style>\n");
    texts(out);
    colours(out);
    out.put(b"</style>\n");
}

// The title wants some width, however few the calls are.
fn sheet_width(calls: u32) -> u32 {
    widths::columns_width(calls)
        .saturating_add(LEFT + 30)
        .max(740)
}

// Calls' texts stand below columns that are wide enough.
fn sheet_height(calls: u32) -> u32 {
    if widths::column_width(calls) < widths::WIDE {
        return 630;
    }
    770
}

fn open_sheet(calls: u32, out: &mut Lines) {
    out.put(b"<svg xmlns='http://www.w3.org/2000/svg'");
    svg::attribute(b" width='", Pixels(sheet_width(calls)), out);
    svg::attribute(b" height='", Pixels(sheet_height(calls)), out);
    out.put(b">\n");
    style(out);
    out.put(b"<rect width='100%' height='100%' style='fill:#fff'/>\n");
}

fn title(counted: Counted, out: &mut Lines) {
    svg::open_text(b"title", Pixels(16), Hundredths(2600), out);
    heading::put(counted, out);
    svg::close_text(out);
}

fn note(text: &[u8], y: u32, out: &mut Lines) {
    svg::open_text(b"note", Pixels(16), Hundredths(y), out);
    out.put(text);
    svg::close_text(out);
}

// All but the columns.
pub fn begin(counted: Counted, out: &mut Lines) {
    open_sheet(counted.calls, out);
    title(counted, out);
    note(
        b"A column is the store after a call, from offset 0 at the top down to its size; the scale is the first store's.",
        4400,
        out,
    );
    note(
        b"A bar is a live region in its record's colour, labelled record: length; blank is free. Red is a refusal, with its number.",
        5900,
        out,
    );
}

// An offset on the scale.
fn offset(n: u64, y: u32, out: &mut Lines) {
    svg::open_text(b"scale", Pixels(LEFT - 8), Hundredths(y), out);
    out.number(n);
    svg::close_text(out);
}

// The scale of a store of this size: an offset at each quarter.
pub fn scale(size: u32, out: &mut Lines) {
    for quarter in 0..5 {
        let n = u64::from(size) * u64::from(quarter) / 4;
        offset(n, TOP + 400 + 12000 * quarter, out);
    }
}
