// A fill gauge: document 02's rule on numbers alone. Which store it is read from is said in `gauging`.
#![tactic(auto)]

ghost use Rattle.std.specs.Prelude.{◌≡◌};
ghost use Rattle.ledger.specs.Ledger.{reported};
ghost use Rattle.answers.specs.Answers.{fill_says};
ghost use Rattle.gauge.specs.Rule.{level_after, peak_after, net_change, begun};
ghost use Rattle.gauge.specs.Answers.{watch_of, reading_says, read_after};

use answers::{Fill, Refusal};
use small_float::Size;

// How full the store has run, in 256ths of it: a level that follows the fill, and the highest that it was.
#[derive(Clone, Copy)]
pub struct Gauge {
    pub level: f32,
    pub peak: f32,
}

// What a caller keeps from one reading to the next: the gauge, and how many units were live at the last reading.
#[derive(Clone, Copy)]
pub struct Watch {
    pub gauge: Gauge,
    pub last: Size,
}

impl Watch {
    // Before the first reading.
    pub fn begun() -> Watch
        ensures { watch_of result ≡ begun }
    {
        Watch {
            gauge: Gauge {
                level: 0.0,
                peak: 0.0,
            },
            last: Size(0),
        }
    }
}

// What a reading tells: the fill, the gauge as it is now, and how many more units are live than at the last reading; below zero, how many fewer.
#[derive(Clone, Copy)]
pub struct Reading {
    pub fill: u16,
    pub level: f32,
    pub peak: f32,
    pub net: i64,
}

// The answer, and what to keep for the next reading: what came, if it was refused.
#[derive(Clone, Copy)]
pub struct Taken {
    pub answer: Result<Reading, Refusal>,
    pub watch: Watch,
}

// An eighth of the way to the fill. Every u16 is a whole number that an f32 holds.
fn level_after(level: f32, fill: u16) -> f32
    ensures { result ≡ level_after level fill }
{
    level + (fill as f32 - level) * 0.125
}

fn peak_after(peak: f32, level: f32) -> f32
    ensures { result ≡ peak_after peak level }
{
    if peak < level { level } else { peak }
}

// In 64 bits, which hold every difference of two 32-bit numbers.
fn net_change(last: u32, live: u32) -> i64
    ensures { result ≡ net_change last live }
{
    (live as i64) - (last as i64)
}

fn read(watch: Watch, told: Fill) -> Taken
    ensures { (reading_says result.answer, watch_of result.watch) ≡ read_after (watch_of watch) (reported told.live.0 told.fill) }
{
    let was = watch.gauge;
    let last = watch.last;
    let live = told.live;
    let level = level_after(was.level, told.fill);
    let peak = peak_after(was.peak, level);
    Taken {
        answer: Ok(Reading {
            fill: told.fill,
            level,
            peak,
            net: net_change(last.0, live.0),
        }),
        watch: Watch {
            gauge: Gauge { level, peak },
            last: live,
        },
    }
}

// A reading by what the store tells of itself; refused if that is.
pub fn take_reading(watch: Watch, told: Result<Fill, Refusal>) -> Taken
    ensures { (reading_says result.answer, watch_of result.watch) ≡ read_after (watch_of watch) (fill_says told) }
{
    match told {
        Ok(fill) => read(watch, fill),
        Err(why) => Taken {
            answer: Err(why),
            watch,
        },
    }
}
