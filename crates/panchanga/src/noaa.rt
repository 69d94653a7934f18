// Sunrise and sunset after NOAA's solar calculator. Each function serves every f64.
ghost use Rattle.std.specs.Prelude.{◌≡◌};
ghost use Rattle.panchanga.specs.Noaa.{centuries_at, obliquity, eccentricity, declination, time_equation, equation_of_time};
ghost use Rattle.panchanga.specs.Noaa.{cos_hour_angle, solar_noon, half_day, events_around, sun_events, events_on};
ghost use Rattle.panchanga.specs.Answers.{span_is};

use super::{Place, Span};
use gregorian::UtDay;
use sky::angles::DEG;
use sky::{sun, time};

// The centuries at noon of a longitude, on the day that begins at `zero`.
fn centuries_at(lon: f64, zero: f64) -> f64
    ensures { result ≡ centuries_at lon zero }
{
    time::julian_centuries(time::tt_of(UtDay(zero + 0.5 - lon / 360.0)))
}

// The obliquity of the ecliptic in degrees.
fn obliquity(t: f64) -> f64
    ensures { result ≡ obliquity t }
{
    23.439291 - 0.0130042 * t
}

// The eccentricity of the Earth's orbit.
fn eccentricity(t: f64) -> f64
    ensures { result ≡ eccentricity t }
{
    0.016708634 - 0.000042037 * t - 0.0000001267 * t * t
}

// The sun's declination in radians, by its longitude in degrees.
fn declination(t: f64, lambda: f64) -> f64
    ensures { result ≡ declination t lambda }
{
    trig::arcsine(trig::sine(obliquity(t) * DEG) * trig::sine(lambda * DEG))
}

// The equation of time in minutes, by y, the eccentricity, and the mean longitude and anomaly in radians.
fn time_equation(y: f64, e: f64, l0r: f64, mr: f64) -> f64
    ensures { result ≡ time_equation y e l0r mr }
{
    let sine = trig::sine(mr);
    4.0 / DEG
        * (y * trig::sine(2.0 * l0r) - 2.0 * e * sine + 4.0 * e * y * sine * trig::cosine(2.0 * l0r)
            - 0.5 * y * y * trig::sine(4.0 * l0r)
            - 1.25 * e * e * trig::sine(2.0 * mr))
}

// The equation of time in minutes, by the mean longitude and anomaly in degrees.
fn equation_of_time(t: f64, l0: f64, m: f64) -> f64
    ensures { result ≡ equation_of_time t l0 m }
{
    let half = trig::tangent(obliquity(t) * DEG / 2.0);
    time_equation(half * half, eccentricity(t), l0 * DEG, m * DEG)
}

// The cosine of the hour angle of sunrise, by the latitude in degrees and the declination in radians.
fn cos_hour_angle(lat: f64, decl: f64) -> f64
    ensures { result ≡ cos_hour_angle lat decl }
{
    trig::cosine(90.833 * DEG) / (trig::cosine(lat * DEG) * trig::cosine(decl))
        - trig::tangent(lat * DEG) * trig::tangent(decl)
}

// True noon as a fraction of the day.
fn solar_noon(lon: f64, eot: f64) -> f64
    ensures { result ≡ solar_noon lon eot }
{
    (720.0 - 4.0 * lon - eot) / 1440.0
}

// The time from sunrise to noon as a fraction of the day, by the hour angle's cosine.
fn half_day(c: f64) -> f64
    ensures { result ≡ half_day c }
{
    trig::arccosine(c) / DEG * 4.0 / 1440.0
}

// Sunrise and sunset around noon, if both are instants.
#[tactic(auto, unfolding(crate::specs::Noaa::events_around))]
fn events_around(noon: f64, half: f64) -> Option<Span>
    ensures { span_is result ≡ events_around noon half }
{
    let rise = noon - half;
    let set = noon + half;
    if gregorian::is_instant(rise) && gregorian::is_instant(set) {
        return Some(Span {
            from: UtDay(rise),
            to: UtDay(set),
        });
    }
    None
}

// Sunrise and sunset at a place on the day that begins at `zero`.
fn events_at(place: Place, zero: f64) -> Option<Span>
    ensures { span_is result ≡ sun_events place zero }
{
    let t = centuries_at(place.longitude, zero);
    let sun = sun::sun_at(t);
    let c = cos_hour_angle(place.latitude, declination(t, sun.longitude));
    if -1.0 <= c {
        if c <= 1.0 {
            let eot = equation_of_time(t, sun.mean, sun.anomaly);
            let noon = zero + 0.0 + solar_noon(place.longitude, eot);
            return events_around(noon, half_day(c));
        }
    }
    None
}

// Sunrise and sunset at a place on the day with a number.
#[tactic(auto, unfolding(crate::specs::Noaa::events_on))]
pub fn events_on(place: Place, n: u32) -> Option<Span>
    ensures { span_is result ≡ events_on place n }
{
    events_at(place, gregorian::zero_hour(n))
}
