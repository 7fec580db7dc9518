// The class lists: a record put into the list of its class, and taken out of it. Each equals its step of tables/specs, exactly.
//
// No access tests its index at run time. What a step needs is required of its caller, and comes in the end from the gate, which tests the
// lengths of the tables once, and from the plan, which tests each record number that it reads: see docs/SPEED.md for what that saves.
#![tactic(auto)]

pub mod class;
pub mod insert;
pub mod remove;
