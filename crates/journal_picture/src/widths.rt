// How wide columns are.
use pictures::counting::MOST;

// From this width on a column has room for its call's text.
pub const WIDE: u32 = 12;

// How wide a column is, in pixels.
pub fn column_width(calls: u32) -> u32 {
    match calls {
        0..=20 => 46,
        21..=60 => 22,
        61..=120 => 12,
        121..=320 => 5,
        _ => 2,
    }
}

// And all of them together.
pub fn columns_width(calls: u32) -> u32 {
    calls.min(MOST).saturating_mul(column_width(calls))
}
