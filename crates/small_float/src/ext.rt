// ext.rs of the Rust: the smallest store that can hold one object.
ghost use Rattle.small_float.specs.Smallest.{SmallestStore};

use crate::Size;

// Refusal 7: an object that no store serves.
#[derive(Clone, Copy, Debug, PartialEq, Eq)]
pub struct TooLarge;

// The size of the smallest store whose one fresh region serves an object of this size.
pub fn min_allocator_size(needed_object_size: Size) -> Result<Size, TooLarge>
    ensures { SmallestStore needed_object_size.0 result }
{
    let class = crate::uint_to_float_round_up(needed_object_size).ok_or(TooLarge)?;
    Ok(crate::size_of_class(class))
}
