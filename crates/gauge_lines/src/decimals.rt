ghost use Rattle.std.specs.Prelude.{◌≡◌};
ghost use Rattle.gauge_lines.specs.Thousandths as Thousandths;

fn whole_part(scaled: f64) -> u64
    ensures { result ≡ Thousandths.whole_part scaled }
{
    if scaled > -1.0 {
        if scaled < 18446744073709551616.0 {
            return std::num::truncating_f64_to_u64(scaled);
        }
    }
    0
}

// The whole part of 1000 times a number; 0 where it is below 0, is no number, or has no whole part in 64 bits. A level is within 0 and 256, and has 24
// binary digits: times 1000 it has 34, which an f64 holds, so that nothing is rounded before it is cut.
pub fn thousandths(x: f32) -> u64
    ensures { result ≡ Thousandths.thousandths x }
{
    whole_part(std::num::f32_to_f64_with_nan(x) * 1000.0)
}
