// Where a call stands across the sheet, in hundredths of a pixel: calls share the width of the plot evenly, from one edge to the next.
ghost use Rattle.std.specs.Prelude.{◌≤◌};

use pictures::counting::MOST;

pub const LEFT: u32 = 9200;

pub const WIDTH: u32 = 76000;

// Where 0 lies, and how far above it 256 lies: a pixel is a 256th of the store.
pub const FOOT: u32 = 35600;

pub const HEIGHT: u32 = 25600;

// The edge before a call; of the number behind the last one, the edge behind it.
pub fn edge(call: u32, calls: u32) -> u32
    ensures { result ≤ 85200 }
{
    if calls <= call || MOST < calls {
        return LEFT + WIDTH;
    }
    LEFT + (WIDTH * call / calls).min(WIDTH)
}

// The edge behind a call.
pub fn end(call: u32, calls: u32) -> u32
    ensures { result ≤ 85200 }
{
    edge(call.saturating_add(1), calls)
}

pub fn middle(call: u32, calls: u32) -> u32
    ensures { result ≤ 85200 }
{
    (edge(call, calls) + end(call, calls)) / 2
}

// The place of a number in hundredths of a 256th.
pub fn down(height: u32) -> u32 {
    FOOT - height.min(HEIGHT)
}
