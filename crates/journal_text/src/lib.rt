// Calls as lines of text, and answers too: what a person writes to have a journal made, and reads of one. docs/JOURNAL.md has the lines on a page.
#![tactic(auto)]

pub mod line;
pub mod reading;
pub mod writing;
