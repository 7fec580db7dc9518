// The list of size classes: what the Rust answers, judged by the port.
ghost use Rattle.std.specs.Prelude.{◌≡◌};
ghost use Rattle.small_float.specs.Class.{rounded_up};
ghost use Rattle.oracle_lists.specs.Verdicts.{in_rust, served_verdict, size_verdict, class_verdict, row_verdict};
ghost use Rattle.oracle_lists.specs.Comparison.{no_bytes, after_byte, after_bytes};

use crate::rows::Reader;
use crate::tally::{Tally, Verdict};
use small_float::{Class, Size};

// What the Rust rounds a size up to: the port's class, or 240 where the port has none.
#[tactic(auto, unfolding(crate::specs::Verdicts::in_rust))]
fn up_in_rust(size: u32) -> u32
    ensures { result ≡ in_rust (rounded_up size) }
{
    small_float::uint_to_float_round_up(Size(size)).map_or(240, |class| class.0)
}

// The smallest store that the Rust gives: the port's, or 0 where the port refuses.
fn judge_smallest(size: u32, smallest: u32) -> Verdict
    ensures { result ≡ served_verdict (rounded_up size) smallest }
{
    match small_float::ext::min_allocator_size(Size(size)) {
        Ok(store) => Verdict::from(store.0 == smallest),
        Err(_) => {
            if smallest == 0 {
                return Verdict::Listed;
            }
            Verdict::Differs
        }
    }
}

// A size with its class rounded down, its class rounded up and its smallest store, as the Rust gives them.
#[tactic(auto, unfolding(crate::specs::Verdicts::size_verdict))]
pub fn judge_size(size: u32, down: u32, up: u32, smallest: u32) -> Verdict
    ensures { result ≡ size_verdict size down up smallest }
{
    let port_down = small_float::uint_to_float_round_down(Size(size));
    if port_down.0 != down {
        return Verdict::Differs;
    }
    if up_in_rust(size) != up {
        return Verdict::Differs;
    }
    judge_smallest(size, smallest)
}

// The last class of the list: the Rust gets a higher class's value by a shift of 32 bits or more, which is an error in it.
const LAST_CLASS: u32 = 263;

// A class with its value, as the Rust gives it: the low 32 bits of the class's value. From class 240 on those are not all of it, and the port gives
// it whole.
pub fn judge_class(class: u32, value: u32) -> Verdict
    ensures { result ≡ class_verdict class value }
{
    if LAST_CLASS < class {
        return Verdict::Differs;
    }
    let port = small_float::float_to_uint(Class(class));
    let in_list = u64::from(value);
    if port == in_list {
        return Verdict::Agrees;
    }
    if port % 4294967296 == in_list {
        return Verdict::Listed;
    }
    Verdict::Differs
}

// A whole row: `c CLASS VALUE` or `s SIZE DOWN UP SMALLEST`. Any other differs.
#[tactic(auto, unfolding(crate::specs::Verdicts::row_verdict))]
pub fn judge_row(row: Reader) -> Verdict
    ensures { result ≡ row_verdict row }
{
    match (row.letter, row.fields) {
        (b'c', 2) => judge_class(row.c, row.d),
        (b's', 4) => judge_size(row.a, row.b, row.c, row.d),
        _ => Verdict::Differs,
    }
}

// The list read so far: the row that is being read, and the tally of those before it.
#[derive(Clone, Copy)]
pub struct Comparison {
    pub reader: Reader,
    pub tally: Tally,
}

impl Comparison {
    pub fn new() -> Comparison
        ensures { result ≡ no_bytes }
    {
        Comparison {
            reader: Reader::new(),
            tally: Tally::new(),
        }
    }

    // One byte more; where it ends a row, the row is judged.
    #[tactic(auto, unfolding(crate::specs::Comparison::after_byte))]
    pub fn feed(self, byte: u8) -> Comparison
        ensures { result ≡ after_byte self byte }
    {
        let tally = self.tally;
        let before = self.reader;
        let reader = before.feed(byte);
        if reader.is_whole() {
            return Comparison {
                reader,
                tally: tally.count(judge_row(reader)),
            };
        }
        Comparison { reader, tally }
    }

    // All of the bytes, in order.
    pub fn feed_all(self, bytes: &[u8]) -> Comparison
        ensures { result ≡ after_bytes self bytes.now }
    {
        let mut comparison = self;
        for byte in bytes {
            comparison = comparison.feed(*byte);
        }
        comparison
    }
}
