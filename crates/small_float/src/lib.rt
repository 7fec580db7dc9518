// Size classes: small_float.rs of the Rust, and ext.rs in the module ext.
// A class is a small float of a size: three bits of mantissa under an exponent, so that the classes of one exponent are evenly spaced.
#![tactic(auto)]

ghost use Rattle.std.specs.Prelude.{◌≡◌, ◌-◌, ◌*◌, ◌/◌, ◌^◌, ◌≤◌, ◌<◌, min};
ghost use Rattle.small_float.specs.Class.{grain, down, value, classes_in_use, rounded_up};
ghost use Rattle.small_float.specs.RoundedUp.{rounded_to};

pub mod ext;

// A size in units of the store, and the number of a class. They are two types, so that one cannot stand for the other.
#[derive(Clone, Copy, Debug, PartialEq, Eq)]
pub struct Size(pub u32);

#[derive(Clone, Copy, Debug, PartialEq, Eq)]
pub struct Class(pub u32);

pub const MANTISSA_BITS: u32 = 3;

pub const MANTISSA_VALUE: u32 = 8;

// The classes that a region can have: the value of each fits in 32 bits, and that of the next does not.
pub const CLASSES_IN_USE: u32 = 240;

// The greatest size that is rounded up to one of them: the value of class 239.
pub const GREATEST_SERVED: u32 = 4026531840;

// The classes whose value fits in 64 bits.
pub const CLASSES_IN_64_BITS: u32 = 496;

// How many low bits of a size its class leaves out: three less than its highest set bit. Bit 3 is set for that, so that a size below 8 leaves none out.
fn grain_of(size: u32) -> u32
    ensures { (result ≡ grain size) × (result ≤ 28) }
{
    31 - MANTISSA_BITS - u32::leading_zeros(size | MANTISSA_VALUE)
}

// The class of a size, rounded up: every size of this class or a higher one, rounded down, is at least as large. The greatest sizes have no class:
// a region of the next one would be of 2^32 units or more, and no store is.
// The one branch asks whether there is a class. The sums, here and in the next, have none: a size from 8 on holds 8 to 15 steps of 2^g, and a lower one,
// whose steps are single units, fewer.
#[tactic(auto, using(crate::proofs::Rounding::rounded_to_none))]
pub fn uint_to_float_round_up(size: Size) -> Option<Class>
    ensures { rounded_to result ≡ rounded_up size.0 }
{
    let s = size.0;
    if GREATEST_SERVED < s {
        return None;
    }
    let g = grain_of(s);
    // s / 2^g rounded up is (s - 1) / 2^g rounded down, and 1 more; signed, so that this holds of 0 too
    let steps = ((s as i64 - 1) >> g) + 1;
    Some(Class(MANTISSA_VALUE * g + steps as u32))
}

// The class of a size, rounded down: where a free region of that size is kept.
pub fn uint_to_float_round_down(size: Size) -> Class
    ensures { result.0 ≡ down size.0 }
{
    let s = size.0;
    let g = grain_of(s);
    Class(MANTISSA_VALUE * g + (s >> g))
}

// A class in parts: so many steps, each of 2^grain units.
#[derive(Clone, Copy)]
struct Steps {
    count: u32,
    grain: u32,
}

fn steps_of(class: u32) -> Steps
    ensures value { result.count * 2 ^ result.grain ≡ value «class» }
    ensures bits { (result.count < 16) × (result.grain ≤ «class» / 8 - 1) }
{
    if class < MANTISSA_VALUE {
        return Steps {
            count: class,
            grain: 0,
        };
    }
    Steps {
        count: MANTISSA_VALUE + class % MANTISSA_VALUE,
        grain: class / MANTISSA_VALUE - 1,
    }
}

// The value of a class, for every class that a full report shows and many more: 64 bits hold it up to class 495. From class 496 on, where they
// do not, it is the greatest number that they hold, so that a higher class never has a lower number.
pub fn float_to_uint(class: Class) -> u64
    ensures { result ≡ min (value class.0) (2 ^ 64 - 1) }
{
    let c = class.0;
    if CLASSES_IN_64_BITS <= c {
        return u64::MAX;
    }
    let steps = steps_of(c);
    (steps.count as u64) << steps.grain
}

// The value of a class that a region can have, which is a Size; no higher class's is.
//
// Private to the allocator, though Rattle has no word for that: whoever calls it knows its class to be one of these.
pub fn size_of_class(class: Class) -> Size
    requires { class.0 < classes_in_use }
    ensures { result.0 ≡ value class.0 }
{
    let steps = steps_of(class.0);
    Size(steps.count << steps.grain)
}
