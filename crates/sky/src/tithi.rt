// The moon's elongation from the sun and the tithi. Each function serves every f64.
ghost use Rattle.std.specs.Prelude.{◌≡◌};
ghost use Rattle.sky.specs.Tithi.{elongation_of, tithi_of};

use super::angles::norm360;
use super::moon::moon_at;
use super::sun::sun_at;
use super::time::{julian_centuries, tt_of};
use gregorian::UtDay;

// The elongation at a day of universal time.
#[tactic(auto, unfolding(crate::specs::Tithi::elongation_of))]
pub fn elongation_of(ut: UtDay) -> f64
    ensures { result ≡ elongation_of ut.0 }
{
    let t = julian_centuries(tt_of(ut));
    let moon = moon_at(t);
    let sun = sun_at(t);
    norm360(moon - sun.longitude)
}

// The tithi of an elongation: 1 plus how many of 12, 24, .., 348 are not above it.
pub fn tithi_of(x: f64) -> u16
    ensures { result ≡ tithi_of x }
{
    let mut n: u16 = 1;
    for k in 0..29u16 {
        if (12 * (k + 1)) as f64 <= x {
            n += 1;
        }
    }
    n
}
