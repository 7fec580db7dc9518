// The fill behind the gate, from the two totals that the head keeps.
ghost use Rattle.std.specs.Prelude.{◌≡◌, [], ◌≤◌};
ghost use Rattle.ledger.specs.Fill.{fill_of};
ghost use Rattle.tables.specs.Questions.{fill_of_words};
ghost use Rattle.records.specs.InWords.{words_of};
ghost use Rattle.answers.specs.Answers.{fill_says};

use answers::{Fill, Refusal};
use records::totals::Totals;
use small_float::Size;

// In 64 bits, since 256 times a length may not fit in 32.
fn part_filled(live: u32, size: u32) -> u16
    requires { live ≤ size }
    ensures { result ≡ fill_of live size }
{
    if size == 0 {
        return 0;
    }
    (256 * (live as u64) / (size as u64)) as u16
}

// More free than there is: a kept total that passes the size is not sound.
pub fn fullness(t: Totals) -> Result<Fill, Refusal>
    ensures { fill_says result ≡ fill_of_words (words_of t [] [] [] []) }
{
    if t.size < t.free_storage {
        return Err(Refusal::Unsound);
    }
    let live = t.size - t.free_storage;
    Ok(Fill {
        live: Size(live),
        fill: part_filled(live, t.size),
    })
}
