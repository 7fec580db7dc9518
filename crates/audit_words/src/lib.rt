// The audit on words, before any code of it: what it tests, in specs/, and that it says yes exactly if the words are sound, in proofs/. What its
// two walks carry from step to step is declared here, so that the code and the words speak of one thing.
#![tactic(auto)]

// How far along the neighbour chain: the record before, the next one, where that must begin, the used word of the one before, and what was
// met. These are words as they stand in tables that may be spoiled, any number, as `advanced` and the theorems of the audit have them; so they are no enum
// and no handles.
#[derive(Clone, Copy)]
pub struct Walk {
    pub prev: u32,
    pub here: u32,
    pub offset: u32,
    pub used: u32,
    pub records: u32,
    pub frees: u32,
    pub total: u32,
}

// How far along a list: the record before, the next one, and the members of all lists so far.
#[derive(Clone, Copy)]
pub struct Along {
    pub prev: u32,
    pub here: u32,
    pub listed: u32,
}
