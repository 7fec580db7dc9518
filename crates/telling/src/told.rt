// The port's answers in the numbers that a row can be held against.
ghost use Rattle.std.specs.Prelude.{◌≡◌, List, ℕ, ◌+◌, ◌<◌, ◌≤◌};
ghost use Rattle.answers.specs.Answers.{says, full_says, columns};
ghost use Rattle.telling.specs.Told.{told, told_as, class_in, held_in, one_if_held, classes_held};

use answers::{Allocation, FullAnswer, Refusal, Said, StorageReport};
use call_values::answer::Answer;
use small_float::Size;

// What a call that is not refused is told as.
pub trait Shown: Said {
    fn shown(self) -> Answer
        ensures { result ≡ told (Self.said self) };
}

// Setup, reset and hand back.
impl Shown for () {
    fn shown(self) -> Answer {
        Answer::Done
    }
}

// Take.
impl Shown for Allocation {
    fn shown(self) -> Answer {
        Answer::Granted(self.offset, self.metadata.0)
    }
}

// A call that came as a value.
impl Shown for Option<Allocation> {
    fn shown(self) -> Answer {
        match self {
            Some(span) => span.shown(),
            None => Answer::Done,
        }
    }
}

// The size query.
impl Shown for Size {
    fn shown(self) -> Answer {
        Answer::Length(self.0)
    }
}

// The report.
impl Shown for StorageReport {
    fn shown(self) -> Answer {
        Answer::Free(self.total_free_space.0, self.largest_free_region.0)
    }
}

pub fn of_answer<T: Shown>(answer: Result<T, Refusal>) -> Answer
    ensures { result ≡ told (says T.said answer) }
{
    match answer {
        Ok(done) => done.shown(),
        Err(why) => Answer::Refused(why.number()),
    }
}

// One class of a full report.
pub fn of_class(full: FullAnswer, class: u32) -> Answer
    ensures { result ≡ told_as (class_in class) (full_says full) }
{
    match full.outcome {
        Ok(()) => {
            if 256 <= class {
                return Answer::Nothing;
            }
            let i = class as usize;
            Answer::Regions(full.sizes[i], full.counts[i])
        }
        Err(why) => Answer::Refused(why.number()),
    }
}

// One class more, unless it holds nothing.
fn count_one(held: u32, count: u32) -> u32
    requires { held < 256 }
    ensures { (result ≤ held + 1) × (result ≡ held + one_if_held count) }
{
    if count == 0 { held } else { held + 1 }
}

// By its places, and no chain of iterators: `of_classes` says why.
fn count_held(counts: &[u32; 256]) -> u32
    ensures { (sizes : List ℕ) → result ≡ classes_held (columns sizes counts.now) }
{
    let mut held = 0;
    for i in 0..256 {
        held = count_one(held, counts[i]);
    }
    held
}

// How many classes of a full report hold something. The counts are taken out first, and gone over by their places: lent as part of the whole to a
// chain of iterators, they had the values worked out too, which nobody reads, and a list of such questions took twice as long.
pub fn of_classes(full: FullAnswer) -> Answer
    ensures { result ≡ told_as held_in (full_says full) }
{
    let outcome = full.outcome;
    let counts = full.counts;
    match outcome {
        Ok(()) => Answer::Held(count_held(&counts)),
        Err(why) => Answer::Refused(why.number()),
    }
}
