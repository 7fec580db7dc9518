// What the answers are outside of Rattle. A program in C or Rust gets no enum: each answer is put into plain numbers there, the refusal's number, 0 for none,
// and the figures beside it, which are 0 where it is one. specs/Tells.antt has the shape that every contract of the functions for such programs has.
#![tactic(auto)]

ghost use Rattle.std.specs.Prelude.{◌≡◌};
ghost use Rattle.ledger.specs.Calls.{Call};
ghost use Rattle.answers.specs.Answers.{says};
ghost use Rattle.answers.specs.Refusals.{number_of};
ghost use Rattle.records.specs.InWords.{in_array};
ghost use Rattle.host_values.specs.Told.{told_by, refused_by};

use answers::{Allocation, Fill, Refusal, Said, StorageReport};
use records::totals::Totals;
use small_float::Size;

// The refusal's number, and at most two figures: a struct for C.
#[repr(C)]
#[derive(Clone, Copy)]
pub struct Told {
    pub number: u32,
    pub first: u32,
    pub second: u32,
}

// "Every refusal returns its number, figures of 0".
pub fn of_refusal(why: Refusal) -> Told
    ensures { result ≡ refused_by (number_of why) }
{
    Told {
        number: why.number(),
        first: 0,
        second: 0,
    }
}

// The figures of what a call grants or tells; no other call's answer could be taken for it, so they are the same under any.
pub trait Shown: Said {
    fn shown(self) -> Told
        ensures { (c : Call) → result ≡ told_by c (Self.said self) };
}

// The offset, then the record.
impl Shown for Allocation {
    fn shown(self) -> Told {
        Told {
            number: 0,
            first: self.offset,
            second: self.metadata.0,
        }
    }
}

// The length.
impl Shown for Size {
    fn shown(self) -> Told {
        Told {
            number: 0,
            first: self.0,
            second: 0,
        }
    }
}

// The sum of the free lengths, then the value of the highest class that holds a region.
impl Shown for StorageReport {
    fn shown(self) -> Told {
        Told {
            number: 0,
            first: self.total_free_space.0,
            second: self.largest_free_region.0,
        }
    }
}

// The live units, then the fill.
impl Shown for Fill {
    fn shown(self) -> Told {
        Told {
            number: 0,
            first: self.live.0,
            second: self.fill as u32,
        }
    }
}

pub fn of_answer<T: Shown>(answer: Result<T, Refusal>) -> Told
    ensures { (c : Call) → result ≡ told_by c (says T.said answer) }
{
    match answer {
        Ok(granted) => granted.shown(),
        Err(why) => of_refusal(why),
    }
}

// The scalars into the array that a program keeps them in, every one of them.
pub fn keep(totals: Totals, scalars: &mut [u32; Totals::SCALARS])
    ensures { scalars.new ≡ in_array totals }
{
    *scalars = totals.in_array();
}
