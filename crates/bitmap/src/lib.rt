// The two levels of bits over the class lists: set and cleared as lists fill and empty, and searched for a class. Each function equals its step of
// tables/specs, exactly.
//
// Private to the allocator, though Rattle has no word for that: what is required here (a class below 256, for a search one that a region can have; a word
// that is not 0) is proved at each call, from what the caller has just tested. No entry point asks it of anybody.
#![tactic(auto)]

pub mod bits;
pub mod search;
