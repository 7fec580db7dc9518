// The lowest class that holds something, by trailing zeros of a leaf byte, then of the top word; the highest bit, by leading zeros.
ghost use Rattle.std.specs.Prelude.{◌≡◌, ◌+◌, ◌/◌, ◌^◌, ◌<◌, eqb};
ghost use Rattle.small_float.specs.Class.{classes_in_use};
ghost use Rattle.tables.specs.Search.{low_from, low_in_bin, find_class, high_bit};
ghost use Rattle.bitmap.specs.InBits.{Tells};

use small_float::Class;

// Why a search finds no class.
#[derive(Clone, Copy, Debug, PartialEq, Eq)]
pub enum NotFound {
    // none from there on holds anything
    NoClass,
    // the bits contradict each other: a top bit is set over a leaf byte of 0
    BadBits,
}

// find_lowest_bit_set_after of the Rust: at or after bit i; 32 where there is none.
fn lowest_bit_set_from(m: u32, i: u32) -> u32
    requires { i < 32 }
    ensures { (result ≡ low_from m i) × (result < 64) }
{
    let rest = m >> i;
    if rest == 0 {
        return 32;
    }
    i + u32::trailing_zeros(rest)
}

// No bit is set from bit i on. Asked first, it leaves `lowest_bit_set_from` nothing to choose, so that a search has one test for each level of bits.
fn none_from(m: u32, i: u32) -> bool
    requires { i < 32 }
    ensures { result ≡ eqb (m / 2 ^ i) 0 }
{
    m >> i == 0
}

// The lowest class above the top bin of c: in the next top bin that holds something, and there from leaf 0 on, whatever leaf c has.
fn lowest_above(used_bins: &[u8; 32], used_bins_top: u32, c: Class) -> Result<Class, NotFound>
    requires { c.0 < classes_in_use }
    ensures { Tells (low_in_bin used_bins.now (low_from used_bins_top (c.0 / 8 + 1))) result }
{
    let from = c.0;
    let above = from / 8 + 1;
    if none_from(used_bins_top, above) {
        return Err(NotFound::NoClass);
    }
    let t = lowest_bit_set_from(used_bins_top, above);
    let i = t as usize;
    let m = u32::from(used_bins[i]);
    if m == 0 {
        return Err(NotFound::BadBits);
    }
    let class = 8 * t + lowest_bit_set_from(m, 0);
    Ok(Class(class))
}

// The lowest class from c on that holds something: in the top bin of c from its own leaf on, or above it. The top bin of a class that a region can have
// is not the last, so there is one above it.
pub fn find_class(used_bins: &[u8; 32], used_bins_top: u32, c: Class) -> Result<Class, NotFound>
    requires { c.0 < classes_in_use }
    ensures { Tells (find_class used_bins.now used_bins_top c.0) result }
{
    let from = c.0;
    let t = from / 8;
    let leaf = from % 8;
    let i = t as usize;
    let m = u32::from(used_bins[i]);
    if none_from(m, leaf) {
        return lowest_above(used_bins, used_bins_top, c);
    }
    let class = 8 * t + lowest_bit_set_from(m, leaf);
    Ok(Class(class))
}

// The highest set bit of a word that is not 0.
pub fn highest_bit_set(m: u32) -> u32
    requires { 0 < m }
    ensures { (result ≡ high_bit m) × (result < 32) }
{
    31 - u32::leading_zeros(m)
}
