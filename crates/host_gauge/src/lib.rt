// The fill gauge for a program in C or Rust. What it keeps from one reading to the next goes in and comes out by value, in plain numbers; nothing of the
// store is written.
#![tactic(auto)]

ghost use Rattle.std.specs.Prelude.{◌≡◌};
ghost use Rattle.gauge.specs.Answers.{watch_of, reading_says};
ghost use Rattle.host_values.specs.Kept.{words_in};
ghost use Rattle.host_values.specs.Tells.{Tells};
ghost use Rattle.host_gauge.specs.Readings.{watch_in, reading_told, Read};

use answers::Refusal;
use gauge::Gauge;
use host_by_value::heads;
use records::totals::Totals;
use small_float::Size;

// What to keep from one reading to the next: zeros at first.
#[repr(C)]
#[derive(Clone, Copy)]
pub struct Watch {
    pub level: f32,
    pub peak: f32,
    // how many units were live at the last reading
    pub last: u32,
}

// What a reading tells, with what to keep for the next: level, peak and last. Refused, these are as they came, and fill and net are 0.
// A struct for C.
#[repr(C)]
#[derive(Clone, Copy)]
pub struct Reading {
    pub number: u32,
    pub fill: u32,
    pub level: f32,
    pub peak: f32,
    pub last: u32,
    pub net: i64,
}

fn of_host(watch: Watch) -> gauge::Watch
    ensures { watch_of result ≡ watch_in watch }
{
    gauge::Watch {
        gauge: Gauge {
            level: watch.level,
            peak: watch.peak,
        },
        last: Size(watch.last),
    }
}

fn flat(answer: Result<gauge::Reading, Refusal>, kept: gauge::Watch) -> Reading
    ensures { result ≡ reading_told (reading_says answer, watch_of kept) }
{
    let now = kept.gauge;
    let last = kept.last;
    match answer {
        Ok(reading) => Reading {
            number: 0,
            fill: reading.fill as u32,
            level: now.level,
            peak: now.peak,
            last: last.0,
            net: reading.net,
        },
        Err(why) => Reading {
            number: why.number(),
            fill: 0,
            level: now.level,
            peak: now.peak,
            last: last.0,
            net: 0,
        },
    }
}

// A reading, in place.
#[unsafe(no_mangle)]
pub extern "C" fn ds_gauge(
    scalars: &[u32; Totals::SCALARS],
    watch: Watch,
    bins: &[u32; 256],
    leaves: &[u8; 32],
    nodes: &[u32],
    pile: &[u32],
) -> Reading
    ensures { Tells reading_told (Read
        (words_in scalars.now bins.now leaves.now nodes.now pile.now) watch) result }
{
    let t = Totals::of_array(scalars);
    let came = of_host(watch);
    let taken = gauging::read_gauge(t, came, bins, leaves, nodes, pile);
    let answer = taken.answer;
    let next = taken.watch;
    flat(answer, next)
}

// A reading, with the head by value.
#[unsafe(no_mangle)]
pub extern "C" fn ds_by_value_gauge(
    scalars: &[u32; Totals::SCALARS],
    watch: Watch,
    bins: &[u32; 256],
    leaves: &[u8; 32],
    nodes: &[u32],
    pile: &[u32],
) -> Reading
    ensures { Tells reading_told (Read
        (words_in scalars.now bins.now leaves.now nodes.now pile.now) watch) result }
{
    let head = heads::of_arrays(scalars, bins, leaves);
    let came = of_host(watch);
    let taken = gauging::read_gauge_of(head, came, nodes, pile);
    let answer = taken.answer;
    let kept = taken.watch;
    flat(answer, kept)
}
