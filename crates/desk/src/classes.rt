// Document 01's table of size classes, and the smallest store of an object.
use small_float::Size;
use small_float::ext::TooLarge;

// The sizes of the table, in its order.
const SIZES: [u32; 12] = [
    0, 7, 8, 15, 16, 17, 19, 31, 1000, 65535, 4026531840, 4294967295,
];

// A size, its class rounded down and its class rounded up, or that it has none.
fn print_row(rt: &impl Print, size: u32) {
    let down = small_float::uint_to_float_round_down(Size(size));
    let _ = print!(rt; "{size:>10}{:>6}", down.0);
    let _ = match small_float::uint_to_float_round_up(Size(size)) {
        Some(up) => println!(rt; "{:>6}", up.0),
        None => println!(rt; "  none"),
    };
}

pub fn print_table(rt: &impl Print) {
    let _ = println!(rt; "      size  down    up");
    for size in SIZES {
        print_row(rt, size);
    }
}

// The smallest store of an object, or the number of the refusal.
pub fn print_smallest_store(rt: &impl Print, object: u32) {
    let _ = print!(rt; "smallest store of {object}: ");
    let _ = match small_float::ext::min_allocator_size(Size(object)) {
        Ok(store) => println!(rt; "{}", store.0),
        Err(TooLarge) => println!(rt; "refusal 7"),
    };
}
