// How long the lent tables must be for a count of records.
ghost use Rattle.tables.specs.Calls.{edition32};
ghost use Rattle.starting.specs.Lengths.{LengthsFor};

use answers::Refusal;
use records::gate;

#[derive(Clone, Copy)]
pub struct Lengths {
    pub nodes: usize,
    pub free_nodes: usize,
    pub scratch: usize,
}

// Words of the audit's scratch to a record.
pub const SCRATCH_WORDS_PER_RECORD: usize = 1;

// The lengths in words, or why setup refuses the count; a call refuses a table that is shorter, and neither reads nor writes beyond them.
pub fn table_lengths(max_allocs: u32) -> Result<Lengths, Refusal>
    ensures { LengthsFor edition32 max_allocs result }
{
    if max_allocs < 2 {
        return Err(Refusal::BadCount);
    }
    if gate::MAX_RECORDS < max_allocs {
        return Err(Refusal::BadCount);
    }
    let n = max_allocs as usize;
    Ok(Lengths {
        nodes: tables::WORDS_PER_RECORD * n,
        free_nodes: tables::PILE_WORDS_PER_RECORD * n,
        scratch: SCRATCH_WORDS_PER_RECORD * n,
    })
}
