// What every call reads and writes, whichever way free regions are listed: the head's scalars, the gate, the words of a record, the pile. Each
// equals its step of tables/specs, exactly.
//
// No access tests its index at run time. What a step needs is required of its caller, and comes in the end from the gate, which tests the
// lengths of the tables once, and from the plan, which tests each record number that it reads: see docs/SPEED.md for what that saves.
#![tactic(auto)]

pub mod answered;
pub mod gate;
pub mod live;
pub mod nodes;
pub mod pile;
pub mod totals;
