// The sun's place, Meeus ch. 25. Each function serves every f64.
ghost use Rattle.std.specs.Prelude.{◌≡◌};
ghost use Rattle.sky.specs.Sun.{mean_longitude, anomaly, center, true_longitude, sun_at};

use super::angles::{DEG, norm360};

// The sun's mean longitude, mean anomaly and true longitude, in degrees.
#[derive(Clone, Copy)]
pub struct SunPlace {
    pub mean: f64,
    pub anomaly: f64,
    pub longitude: f64,
}

fn mean_longitude(t: f64) -> f64
    ensures { result ≡ mean_longitude t }
{
    280.46646 + 36000.76983 * t + 0.0003032 * t * t
}

fn anomaly(t: f64) -> f64
    ensures { result ≡ anomaly t }
{
    357.52911 + 35999.05029 * t - 0.0001537 * t * t
}

// The equation of the center.
fn center(t: f64, m: f64) -> f64
    ensures { result ≡ center t m }
{
    (1.914602 - 0.004817 * t - 0.000014 * t * t) * trig::sine(m * DEG)
        + (0.019993 - 0.000101 * t) * trig::sine(2.0 * m * DEG)
        + 0.000289 * trig::sine(3.0 * m * DEG)
}

// The true longitude, before it is brought from 0 to 360 degrees.
fn true_longitude(t: f64, mean: f64, m: f64) -> f64
    ensures { result ≡ true_longitude t mean m }
{
    mean + center(t, m)
}

// The sun's place at t centuries after the beginning of 2000.
#[tactic(auto, unfolding(crate::specs::Sun::sun_longitude))]
pub fn sun_at(t: f64) -> SunPlace
    ensures { result ≡ sun_at t }
{
    let mean = mean_longitude(t);
    let m = anomaly(t);
    SunPlace {
        mean,
        anomaly: m,
        longitude: norm360(true_longitude(t, mean, m)),
    }
}
