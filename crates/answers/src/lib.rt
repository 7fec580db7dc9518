// What the calls answer with: a handle, a grant, figures, or a refusal with document 01's number.
//
// Every answer is a `Result`: what was granted or told, or nothing where a call is merely done, or the `Refusal`; `number` gives document 01's
// number of it, 0 where it is no refusal. answers/specs says of each what it is in the ledger's terms.
#![tactic(auto)]

ghost use Rattle.std.specs.Prelude.{◌≡◌, refl, Some, None};
ghost use Rattle.ledger.specs.Ledger.{Answer, granted, done, length_is, reported};
ghost use Rattle.ledger.specs.Figures.{refusal_of};
ghost use Rattle.answers.specs.Refusals.{number_of};
ghost use Rattle.answers.specs.Answers.{says, full_says, span_or_done};

use small_float::Size;

// A record number that was given out. A handle, a class and a size are three types, so that one cannot stand for another.
#[derive(Clone, Copy, Debug, PartialEq, Eq)]
pub struct Handle(pub u32);

// A granted span: where it starts, and its handle. It is handed back whole, and both must agree.
#[derive(Clone, Copy, Debug, PartialEq, Eq)]
pub struct Allocation {
    pub offset: u32,
    pub metadata: Handle,
}

// Why a call is refused. A refusal changes no word of head or tables; but a refused setup gives a head of zeros.
#[derive(Clone, Copy, Debug, PartialEq, Eq)]
pub enum Refusal {
    // 1: setup with a count below 2 or above the limit
    BadCount,
    // 2: a lent table is shorter than the count needs
    TableTooShort,
    // 3: take with one spare record or none
    NoSpareRecord,
    // 4: take with no free region whose class reaches the request's
    NoRegion,
    // 5: hand back or size query of a record that is not live
    NotLive,
    // 6: the head's count is out of range, or the tables are not sound
    Unsound,
    // 8: hand back or size query of a record that is live but starts at another offset than the span's
    StartsElsewhere,
}

impl Refusal {
    // The documents' number.
    pub fn number(self) -> u32
        ensures { result ≡ number_of self }
    {
        let why = self;
        match why {
            Refusal::BadCount => 1,
            Refusal::TableTooShort => 2,
            Refusal::NoSpareRecord => 3,
            Refusal::NoRegion => 4,
            Refusal::NotLive => 5,
            Refusal::Unsound => 6,
            Refusal::StartsElsewhere => 8,
        }
    }
}

// What a call that is not refused says in the ledger's terms, which is none of the ledger's refusals.
pub trait Said {
    ghost said: { Self → Answer };

    ghost no_refusal: { (x : Self) → refusal_of (said x) ≡ 0 };
}

// Setup, reset, hand back and the audit: done, or sound.
impl Said for () {
    ghost said = { λ _. done };

    ghost no_refusal = { λ _. refl };
}

// Take.
impl Said for Allocation {
    ghost said = { λ span. granted span.offset span.metadata.0 };

    ghost no_refusal = { λ _. refl };
}

// Any call that changes something: a take's span, or none where it is merely done.
impl Said for Option<Allocation> {
    ghost said = { span_or_done };

    ghost no_refusal = { elim [ Some span ↦ refl | None ↦ refl ] };
}

// The size query.
impl Said for Size {
    ghost said = { λ size. length_is size.0 };

    ghost no_refusal = { λ _. refl };
}

// The sum of the free lengths, and the value of the highest class that holds a region.
#[derive(Clone, Copy, Debug, PartialEq, Eq)]
pub struct StorageReport {
    pub total_free_space: Size,
    pub largest_free_region: Size,
}

// The report.
impl Said for StorageReport {
    ghost said = { λ report. reported report.total_free_space.0 report.largest_free_region.0 };

    ghost no_refusal = { λ _. refl };
}

// How full the store is: the live lengths summed, and how many of 256 equal parts of the store they fill, rounded down.
#[derive(Clone, Copy, Debug, PartialEq, Eq)]
pub struct Fill {
    pub live: Size,
    pub fill: u16,
}

// The fill.
impl Said for Fill {
    ghost said = { λ fill. reported fill.live.0 fill.fill };

    ghost no_refusal = { λ _. refl };
}

// The documents' number of an answer's refusal, 0 where it is none.
pub fn number<T: Said + Drop>(answer: Result<T, Refusal>) -> u32
    ensures { result ≡ refusal_of (says T.said answer) }
{
    match answer {
        Ok(_) => 0,
        Err(why) => why.number(),
    }
}

// The full report: of each class from 0 to 255 its value, and how many free regions it holds. Refused, its figures are all 0, which document 01 says of
// every refusal and `FiguresOfZero` of this one: so they stand beside the outcome, and not in it.
#[derive(Clone, Copy)]
pub struct FullAnswer {
    pub outcome: Result<(), Refusal>,
    pub sizes: [u64; 256],
    pub counts: [u32; 256],
}

impl FullAnswer {
    pub fn number(self) -> u32
        ensures { result ≡ refusal_of (full_says self) }
    {
        number(self.outcome)
    }
}
