// The audit's walk along the class lists, and the two levels of bits over them made anew.
//
// Private to the allocator, though Rattle has no word for that: the room that is required here the audit's gate has tested.
#![tactic(auto)]

pub mod bits;
pub mod lists;
