// The spans that are out.
use answers::{Allocation, Handle, Refusal};

// What stands where none is out.
pub const NO_SPAN: Allocation = Allocation {
    offset: 0,
    metadata: Handle(0),
};

// What was granted, at the end.
pub fn keep(held: &mut [Allocation], count: u32, answer: Result<Allocation, Refusal>) {
    match answer {
        Ok(span) => {
            if let Some(place) = held.get_mut(count as usize) {
                *place = span;
            }
        }
        Err(_) => (),
    }
}

// The span at a place; the last one moves there.
pub fn swap_remove(held: &mut [Allocation], count: u32, place: u32) -> Allocation {
    let count = count as usize;
    let place = place as usize;
    if place < count && count <= held.len() {
        let span = held[place];
        held[place] = held[count - 1];
        return span;
    }
    NO_SPAN
}
