// What the port answered to a call, as a value. `trials` makes the calls; that answers are told rightly is proved here.
#![tactic(auto)]

pub mod told;

use call_values::answer::Answer;

// What a call answered, and what it left of the head where that is not lent: the scalars in place, all of it by value.
#[derive(Clone, Copy)]
pub struct Called<H> {
    pub answer: Answer,
    pub left: H,
}
