// Angles in degrees.
ghost use Rattle.std.specs.Prelude.{◌≡◌};
ghost use Rattle.sky.specs.Angles.{norm360};

use crate::division;

// A degree in radians.
pub const DEG: f64 = 3.141592653589793 / 180.0;

// An angle brought from 0 to 360 degrees, as Rust's `rem_euclid` does it: it can give 360.0.
pub fn norm360(x: f64) -> f64
    ensures { result ≡ norm360 x }
{
    division::rem_euclid(x, 360)
}
