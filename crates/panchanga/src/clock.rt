// The minute of the day. Each function serves every f64.
ghost use Rattle.std.specs.Prelude.{◌≡◌};
ghost use Rattle.panchanga.specs.Clock.{rounded, minutes_of, fraction, clock_of};

// The nearest whole number, half upward; 0 below 0.0 or for no number.
pub fn rounded(x: f64) -> u32
    ensures { result ≡ rounded x }
{
    if 0.0 <= x {
        if x < 4294967295.0 {
            let n = std::num::truncating_f64_to_u64(x) as u32;
            if 0.5 <= x - n as f64 {
                return n + 1;
            }
            return n;
        }
        return 4294967295;
    }
    0
}

// The minutes of a local fraction of the day.
pub fn minutes_of(fraction: f64) -> u16
    ensures { result ≡ minutes_of fraction }
{
    (rounded(fraction * 24.0 * 60.0) % 1440) as u16
}

// What is left of a number after its whole part, as Rust's `rem_euclid` has it.
fn fraction(x: f64) -> f64
    ensures { result ≡ fraction x }
{
    sky::division::rem_euclid(x, 1)
}

// The minute of the day in Nepal.
#[tactic(auto, unfolding(crate::specs::Clock::clock_of))]
pub fn clock_of(x: f64) -> u16
    ensures { result ≡ clock_of x }
{
    minutes_of(fraction(gregorian::local_day(x)))
}
