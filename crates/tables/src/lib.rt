// No code but the numbers of the layout: this crate says how the ledger stands in words. specs/Lib.antt has the order to read in.
#![tactic(auto)]

// Words of `nodes` to a record, and of `free_nodes`.
pub const WORDS_PER_RECORD: usize = 8;

pub const PILE_WORDS_PER_RECORD: usize = 1;
