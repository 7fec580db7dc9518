// The class whose list holds a free region of a size: one of the head's, since a size has 32 bits.
ghost use Rattle.std.specs.Prelude.{◌≡◌, ◌<◌};
ghost use Rattle.small_float.specs.Class.{down};

use small_float::{Class, Size};

// By the bare number: a proof sees the width of a u32 that is passed, and not that of one inside a struct which is only passed on.
fn of_number(size: u32) -> Class
    ensures { (result.0 ≡ down size) × (result.0 < 256) }
{
    small_float::uint_to_float_round_down(Size(size))
}

pub fn class_of(size: Size) -> Class
    ensures { (result.0 ≡ down size.0) × (result.0 < 256) }
{
    of_number(size.0)
}
