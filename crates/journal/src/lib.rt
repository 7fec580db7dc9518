// A journal of calls: its records written into lent bytes, and read from them. docs/JOURNAL.md has the format on a page.
#![tactic(auto)]

pub mod entry;
pub mod reading;
pub mod writing;
