// A packet call made on a copy of two small stores, so that what stood before it stays at hand. The calls that change a head, but for a setup of both, go
// by value, the others in place.
#![tactic(auto)]

mod filling;
mod heads;
pub mod making;
pub mod questions;
pub mod setting_up;
pub mod sides;
pub mod told;
