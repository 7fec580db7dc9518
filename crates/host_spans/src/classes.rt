// Size classes, the smallest store for an object, and the lengths of the tables.
ghost use Rattle.std.specs.Prelude.{◌≡◌, ◌-◌, ◌^◌, min};
ghost use Rattle.small_float.specs.Class.{down, value, rounded_up};
ghost use Rattle.small_float.specs.Smallest.{SmallestStore};
ghost use Rattle.tables.specs.Calls.{edition32};
ghost use Rattle.starting.specs.Lengths.{LengthsFor};
ghost use Rattle.host_values.specs.Tells.{Tells};
ghost use Rattle.host_spans.specs.Classes.{class_or_256, smallest_told, lengths_told};

use answers::Refusal;
use host_values::Told;
use small_float::ext::TooLarge;
use small_float::{Class, Size};
use starting::lengths;

// What stands for no class where C is told: one more than the highest that a full report has.
pub const NO_CLASS: u32 = 256;

// The lengths in words of the tables that are lent, and of the audit's scratch: a struct for C.
#[repr(C)]
#[derive(Clone, Copy)]
pub struct Lengths {
    pub number: u32,
    pub nodes: usize,
    pub pile: usize,
    pub scratch: usize,
}

// The class of a size, rounded down.
#[unsafe(no_mangle)]
pub extern "C" fn ds_class_down(size: u32) -> u32
    ensures { result ≡ down size }
{
    small_float::uint_to_float_round_down(Size(size)).0
}

// Rounded up.
#[unsafe(no_mangle)]
pub extern "C" fn ds_class_up(size: u32) -> u32
    ensures { result ≡ class_or_256 (rounded_up size) }
{
    match small_float::uint_to_float_round_up(Size(size)) {
        Some(class) => class.0,
        None => NO_CLASS,
    }
}

// The least size of a class.
#[unsafe(no_mangle)]
pub extern "C" fn ds_class_value(class: u32) -> u64
    ensures { result ≡ min (value «class») (2 ^ 64 - 1) }
{
    small_float::float_to_uint(Class(class))
}

fn told_of_smallest(answer: Result<Size, TooLarge>) -> Told
    ensures { result ≡ smallest_told answer }
{
    match answer {
        Ok(size) => Told {
            number: 0,
            first: size.0,
            second: 0,
        },
        Err(TooLarge) => Told {
            number: 7,
            first: 0,
            second: 0,
        },
    }
}

// The smallest store for an object of this size.
#[unsafe(no_mangle)]
pub extern "C" fn ds_smallest_store(object: u32) -> Told
    ensures { Tells smallest_told (SmallestStore object) result }
{
    told_of_smallest(small_float::ext::min_allocator_size(Size(object)))
}

fn flat_lengths(answer: Result<lengths::Lengths, Refusal>) -> Lengths
    ensures { result ≡ lengths_told answer }
{
    match answer {
        Ok(needed) => Lengths {
            number: 0,
            nodes: needed.nodes,
            pile: needed.free_nodes,
            scratch: needed.scratch,
        },
        Err(why) => Lengths {
            number: why.number(),
            nodes: 0,
            pile: 0,
            scratch: 0,
        },
    }
}

// How long the tables must be for this many records.
#[unsafe(no_mangle)]
pub extern "C" fn ds_table_lengths(count: u32) -> Lengths
    ensures { Tells lengths_told (LengthsFor edition32 count) result }
{
    flat_lengths(lengths::table_lengths(count))
}
