// The calls made one after the other on tables for 1,024 records, and the gauge read after each.
use answers::Refusal;
use calls::{Answer, Call};
use gauge::{Reading, Watch};
use journal::entry::Record;
use records::totals::Totals;

// A reading: fill, level and peak in hundredths of a 256th, and whether as many units are live as at the last reading.
#[derive(Clone, Copy)]
pub struct Read {
    pub fill: u32,
    pub level: u32,
    pub peak: u32,
    pub same: bool,
}

// What a call did to all of the store: a setup that was accepted, or a reset.
#[derive(Clone, Copy)]
pub enum Deed {
    SetUp,
    Reset,
}

// What is kept of a call.
#[derive(Clone, Copy)]
pub struct Point {
    // none where the reading was refused
    pub reading: Option<Read>,
    pub deed: Option<Deed>,
}

impl Point {
    pub const BLANK: Point = Point {
        reading: None,
        deed: None,
    };
}

// A level in hundredths; none is above 256.
fn hundredths(x: f32) -> u32 {
    (gauge_lines::thousandths(x) / 10).min(25600) as u32
}

fn kept_of(answer: Result<Reading, Refusal>) -> Option<Read> {
    match answer {
        Ok(reading) => Some(Read {
            fill: 100 * u32::from(reading.fill),
            level: hundredths(reading.level),
            peak: hundredths(reading.peak),
            same: reading.net == 0,
        }),
        Err(_) => None,
    }
}

fn deed_of(call: Call, answer: Answer) -> Option<Deed> {
    let Ok(None) = answer else {
        return None;
    };
    match call {
        Call::SetUp(_, _) => Some(Deed::SetUp),
        Call::Reset => Some(Deed::Reset),
        Call::Take(_) | Call::HandBack(_) => None,
    }
}

// A point for each call. So many were counted as can be read, so there is a call for each.
fn read_on(
    bytes: &[u8],
    bin_indices: &mut [u32; 256],
    used_bins: &mut [u8; 32],
    nodes: &mut [u32; 8192],
    free_nodes: &mut [u32; 1024],
    points: &mut [Point],
) {
    let mut totals = Totals::zeros();
    let mut watch = Watch::begun();
    let mut at = 0;
    for point in points.iter_mut() {
        let Ok(Some(Record { call, next })) = journal::reading::read(bytes, at) else {
            return;
        };
        let called = calling::make(call, totals, bin_indices, used_bins, nodes, free_nodes);
        totals = called.totals;
        let taken = gauging::read_gauge(totals, watch, bin_indices, used_bins, nodes, free_nodes);
        let reading = taken.answer;
        watch = taken.watch;
        *point = Point {
            reading: kept_of(reading),
            deed: deed_of(call, called.answer),
        };
        at = next;
    }
}

// Of as many of the first calls as there are points.
pub fn read_all(bytes: &[u8], points: &mut [Point]) {
    let mut bin_indices = [0u32; 256];
    let mut used_bins = [0u8; 32];
    let mut nodes = [0u32; 8192];
    let mut free_nodes = [0u32; 1024];
    read_on(
        bytes,
        &mut bin_indices,
        &mut used_bins,
        &mut nodes,
        &mut free_nodes,
        points,
    );
}
