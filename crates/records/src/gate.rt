// What comes before all else in every call: the count, then the lengths of the tables.
ghost use Rattle.std.specs.Prelude.{◌≡◌, length};
ghost use Rattle.answers.specs.Refusals.{number_of};
ghost use Rattle.tables.specs.Gate.{gate};
ghost use Rattle.tables.specs.Calls.{edition32};
ghost use Rattle.records.specs.InWords.{gate_number};

use answers::Refusal;

// The greatest count of records.
pub const MAX_RECORDS: u32 = 1048576;

// The gate is open, or shut for this reason: a count out of its limits is refused as `bad_count`, a table too short for it as too short.
pub fn test(
    max_allocs: u32,
    nodes: &[u32],
    free_nodes: &[u32],
    bad_count: Refusal,
) -> Result<(), Refusal>
    ensures { gate_number result
        ≡ gate edition32 (number_of bad_count) max_allocs (length nodes.now) (length free_nodes.now) }
{
    if max_allocs < 2 {
        return Err(bad_count);
    }
    if MAX_RECORDS < max_allocs {
        return Err(bad_count);
    }
    let n = max_allocs as usize;
    if nodes.len() < 8 * n {
        return Err(Refusal::TableTooShort);
    }
    if free_nodes.len() < n {
        return Err(Refusal::TableTooShort);
    }
    Ok(())
}
