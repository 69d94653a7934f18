// Universal and terrestrial time. Each function serves every f64.
ghost use Rattle.std.specs.Prelude.{◌≡◌};
ghost use Rattle.sky.specs.Time.{delta_t, tt_of, julian_centuries, tt_day};

use super::TtDay;
use gregorian::UtDay;

// Whether a number is a day of terrestrial time that the engine serves.
pub fn is_tt_day(x: f64) -> bool
    ensures { result ≡ tt_day x }
{
    2399999.0 <= x && x <= 2510001.0
}

// ΔT, the difference between terrestrial and universal time, in seconds. Espenak and Meeus' piecewise polynomials.
pub fn delta_t(year: f64) -> f64
    ensures { result ≡ delta_t year }
{
    if year < 1920.0 {
        let t = year - 1900.0;
        return -2.79 + 1.494119 * t - 0.0598939 * t * t + 0.0061966 * (t * t * t)
            - 0.000197 * (t * t * (t * t));
    }
    if year < 1941.0 {
        let t = year - 1920.0;
        return 21.20 + 0.84493 * t - 0.076100 * t * t + 0.0020936 * (t * t * t);
    }
    if year < 1961.0 {
        let t = year - 1950.0;
        return 29.07 + 0.407 * t - t * t / 233.0 + t * t * t / 2547.0;
    }
    if year < 1986.0 {
        let t = year - 1975.0;
        return 45.45 + 1.067 * t - t * t / 260.0 - t * t * t / 718.0;
    }
    if year < 2005.0 {
        let t = year - 2000.0;
        return 63.86 + 0.3345 * t - 0.060374 * t * t
            + 0.0017275 * (t * t * t)
            + 0.000651814 * (t * t * (t * t))
            + 0.00002373599 * (t * t * (t * t) * t);
    }
    if year < 2050.0 {
        let t = year - 2000.0;
        return 62.92 + 0.32217 * t + 0.005589 * t * t;
    }
    let q = (year - 1820.0) / 100.0;
    -20.0 + 32.0 * (q * q) - 0.5628 * (2150.0 - year)
}

// The day of terrestrial time at a day of universal time: the only step from one to the other.
pub fn tt_of(ut: UtDay) -> TtDay
    ensures { result.0 ≡ tt_of ut.0 }
{
    let year = 2000.0 + (ut.0 - 2451545.0) / 365.25;
    TtDay(ut.0 + delta_t(year) / 86400.0)
}

// The centuries since the beginning of 2000.
pub fn julian_centuries(tt: TtDay) -> f64
    ensures { result ≡ julian_centuries tt.0 }
{
    (tt.0 - 2451545.0) / 36525.0
}
