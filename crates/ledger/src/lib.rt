// No code: this crate says what the allocator means. specs/Ledger.antt is where to start.
#![tactic(auto)]
