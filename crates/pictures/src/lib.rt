// For the programs that draw a journal: `picture` reads it and begins and ends, `counting` says how many calls there are to draw, `heading` what is said of
// them, `svg` has the elements of an SVG.
#![tactic(auto)]

pub mod counting;
pub mod heading;
pub mod picture;
pub mod svg;
