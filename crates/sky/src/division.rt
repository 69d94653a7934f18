// What a division by a whole number leaves of an f64, by the number's digits: no call of the C library's `fmod`.
ghost use Rattle.std.specs.Prelude.{◌≡◌, ◌<◌, ◌*◌, ◌^◌, ◌%◌, pos, true, false};
ghost use Rattle.std.specs.Float.{binary64, float_is_finite};
ghost use Rattle.std.specs.Float.Ieee.{rem, lt};
ghost use Rattle.paper.specs.Floats.{whole, bits};
ghost use Rattle.sky.specs.Angles.{rem_euclid};

// The weight of the leading digit, which an f64 does not write.
const LEADING: u64 = 0x10_0000_0000_0000;

// What n leaves of a number doubled so many times.
fn doubled(digits: u64, times: u64, n: u32) -> u64
    requires { 0 < n }
    ensures { result ≡ digits * 2 ^ times % n }
{
    let mut left = digits % n as u64;
    for _done in 0..times {
        left = left * 2 % n as u64;
    }
    left
}

// What n leaves of a finite number of at least n.
fn large_remainder(size: f64, n: u32) -> f64
    requires above { 0 < n }
    requires finite { float_is_finite size ≡ true }
    requires large { lt size (whole (pos n)) ≡ false }
    ensures { result ≡ rem binary64 size (whole (pos n)) }
{
    // size is digits * 2 ^ (exponent - 1075)
    let pattern = f64::to_bits(size);
    let exponent = pattern >> 52;
    let digits = pattern % LEADING + LEADING;
    if exponent < 1075 {
        let places = 1075 - exponent;
        return (digits % ((n as u64) << places)) as f64 / (1u64 << places) as f64;
    }
    doubled(digits, exponent - 1075, n) as f64
}

// What n leaves of a number that is not below 0.0.
fn size_remainder(size: f64, n: u32) -> f64
    requires { lt size (bits 0) ≡ false }
    ensures { result ≡ rem binary64 size (whole (pos n)) }
{
    if size < n as f64 {
        return size;
    }
    if 0 < n {
        if size.is_finite() {
            return large_remainder(size, n);
        }
    }
    0.0 / 0.0
}

// Rust's `x % n as f64`, exact and with the sign of x: no number for no number, for an infinity and for an n of 0.
pub fn remainder(x: f64, n: u32) -> f64
    ensures { result ≡ rem binary64 x (whole (pos n)) }
{
    if x < 0.0 {
        -size_remainder(-x, n)
    } else {
        size_remainder(x, n)
    }
}

// Rust's `x.rem_euclid(n as f64)`: the remainder, and n more where that is below 0.0. It can give n itself.
pub fn rem_euclid(x: f64, n: u32) -> f64
    ensures { result ≡ rem_euclid x (whole (pos n)) }
{
    let r = remainder(x, n);
    if r < 0.0 { r + n as f64 } else { r }
}
