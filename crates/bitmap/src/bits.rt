// The bits over the class lists: a bit of a leaf byte for each class that holds something, a bit of the top word for each leaf byte that is
// not 0. Neither function looks at a link: its caller has just found that the class was empty, or is now.
ghost use Rattle.std.specs.Prelude.{◌<◌};
ghost use Rattle.bitmap.specs.InBits.{Marked, Unmarked};

use small_float::Class;

// Class c holds something: its bit is set, and the bit of its leaf byte. A `Class` is any number, as `float_to_uint` takes one; so that c is one of the head's
// is asked here, and in `bins`, and is in no type: each of the five that ask it would make a value of a second one.
pub fn mark(used_bins: &mut [u8; 32], used_bins_top: u32, c: Class) -> u32
    requires { c.0 < 256 }
    ensures { Marked used_bins_top c.0 used_bins.old result used_bins.new }
{
    let t = c.0 / 8;
    let i = t as usize;
    used_bins[i] = used_bins[i] | (1u8 << (c.0 % 8));
    used_bins_top | (1u32 << t)
}

// Class c holds nothing any more: its bit is cleared, and the top bit where its leaf byte is then 0.
pub fn unmark(used_bins: &mut [u8; 32], used_bins_top: u32, c: Class) -> u32
    requires { c.0 < 256 }
    ensures { Unmarked used_bins_top c.0 used_bins.old result used_bins.new }
{
    let t = c.0 / 8;
    let i = t as usize;
    let m = used_bins[i] & (255u8 - (1u8 << (c.0 % 8)));
    used_bins[i] = m;
    if m == 0 {
        return used_bins_top & (4294967295u32 - (1u32 << t));
    }
    used_bins_top
}
