// What a call that can change the scalars gives back: its answer, and the scalars as it leaves them.
use crate::totals::Totals;
use answers::Refusal;

#[derive(Clone, Copy)]
pub struct Answered<T> {
    pub answer: Result<T, Refusal>,
    pub totals: Totals,
}
