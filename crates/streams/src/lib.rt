// The numbers of a program's three streams, by which the kit's `io` reads and writes them, and a block read of a stream.
#![tactic(auto)]

ghost use Rattle.std.specs.Prelude.{◌≤◌, length};

use std::io::Read;

pub const STDIN_FILENO: i32 = 0;

pub const STDOUT_FILENO: i32 = 1;

pub const STDERR_FILENO: i32 = 2;

// As many bytes as the block holds, or all that come before a read of none; a read that fails is one. So a block is short only where no byte is at hand,
// however few a read gives, and an input has ended where a block has none: at a terminal it goes on behind a first end, as it does for `io::read_full`.
pub fn read_block(input: &mut impl Read, block: &mut [u8]) -> usize
    ensures { result ≤ length block.new }
{
    let mut filled = 0;
    for _ in 0..block.len() {
        let n = input.read(&mut block[filled..]).unwrap_or(0);
        if n == 0 {
            break;
        }
        filled += n;
    }
    filled
}
