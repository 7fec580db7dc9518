// No code: this crate holds definitions (specs/) and facts (proofs/) on numbers and lists that every layer above shares.
#![tactic(auto)]
