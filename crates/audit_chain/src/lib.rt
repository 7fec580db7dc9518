// The audit's walk along the neighbour chain, and before it the marks of the spare records.
//
// Private to the allocator, though Rattle has no word for that: the room that is required here the audit's gate has tested.
#![tactic(auto)]

pub mod chain;
pub mod marked;
pub mod scratch;
pub mod spares;
