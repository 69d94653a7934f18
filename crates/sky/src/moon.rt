// The moon's longitude, Meeus ch. 47. Each function serves every f64.
ghost use Rattle.std.specs.Prelude.{◌≡◌, ◌<◌, length, get_or};
ghost use Rattle.std.specs.Float.{nan};
ghost use Rattle.paper.specs.Floats.{whole};
ghost use Rattle.trig.specs.Trig.{sine};
ghost use Rattle.sky.specs.Moon.{moon_args, factor_power, angle, moon_sum, additive, moon_longitude};
ghost use Rattle.sky.specs.Inner.{Sixty, row, add_term, added};

use super::angles::{DEG, norm360};
use super::terms::MOON_TERMS;

// The moon's mean longitude L', the mean elongation D, the anomalies M of the sun and M' of the moon and the
// argument of latitude F, which counts from the node, in degrees, and the factor E of terms in M.
#[derive(Clone, Copy)]
pub struct MoonArgs {
    pub mean: f64,
    pub elongation: f64,
    pub sun: f64,
    pub moon: f64,
    pub node: f64,
    pub factor: f64,
}

// The multiples of D, M, M' and F in the angle of a periodic term, and its coefficient in millionths of a degree.
#[derive(Clone, Copy)]
pub struct Term {
    pub elongation: i32,
    pub sun: i32,
    pub moon: i32,
    pub node: i32,
    pub coefficient: i32,
}

fn as_float(n: i32) -> f64
    ensures { result ≡ whole n }
{
    n as f64
}

// The moon's arguments at t centuries after the beginning of 2000.
fn moon_args(t: f64) -> MoonArgs
    ensures { result ≡ moon_args t }
{
    let t3 = t * t * t;
    let t4 = (t * t) * (t * t);
    MoonArgs {
        mean: 218.3164477 + 481267.88123421 * t - 0.0015786 * t * t + t3 / 538841.0
            - t4 / 65194000.0,
        elongation: 297.8501921 + 445267.1114034 * t - 0.0018819 * t * t + t3 / 545868.0
            - t4 / 113065000.0,
        sun: 357.5291092 + 35999.0502909 * t - 0.0001536 * t * t + t3 / 24490000.0,
        moon: 134.9633964 + 477198.8675055 * t + 0.0087414 * t * t + t3 / 69699.0 - t4 / 14712000.0,
        node: 93.2720950 + 483202.0175233 * t - 0.0036539 * t * t - t3 / 3526000.0
            + t4 / 863310000.0,
        factor: 1.0 - 0.002516 * t - 0.0000074 * t * t,
    }
}

// The factor E to the power of a multiple's magnitude, which is at most 2 in the table.
fn factor_power(factor: f64, multiple: i32) -> f64
    ensures { result ≡ factor_power factor multiple }
{
    if multiple == 0 {
        return 1.0;
    }
    if multiple == 1 {
        return factor;
    }
    if multiple == -1 {
        return factor;
    }
    factor * factor
}

// The angle of a term in radians.
fn angle(a: MoonArgs, x: Term) -> f64
    ensures { result ≡ angle a x }
{
    (as_float(x.elongation) * a.elongation
        + as_float(x.sun) * a.sun
        + as_float(x.moon) * a.moon
        + as_float(x.node) * a.node)
        * DEG
}

// A term whose angle has this sine added to a sum, none where the coefficient is 0.
fn add_term(factor: f64, x: Term, sine: f64, sum: f64) -> f64
    ensures { result ≡ add_term factor x sine sum }
{
    if x.coefficient == 0 {
        return sum;
    }
    sum + as_float(x.coefficient) * factor_power(factor, x.sun) * sine
}

// The angles of the rows of a table.
fn put_angles(terms: &[Term; 60], a: MoonArgs, out: &mut [f64; 60])
    requires { length out.old ≡ 60 }
    ensures { Sixty out.new (λ i. angle a (row terms.now i)) }
{
    for i in 0..60 {
        out[i] = angle(a, terms[i]);
    }
}

// The sum over the rows of a table, whose angles have these sines.
fn add_terms(terms: &[Term; 60], factor: f64, sines: &[f64; 60]) -> f64
    ensures { result ≡ added (row terms.now) factor (λ i. get_or sines.now i nan) 60 }
{
    let mut sum = 0.0;
    for i in 0..60 {
        sum = add_term(factor, terms[i], sines[i], sum);
    }
    sum
}

// The sum over the rows of a table: all angles, then all sines, then the sum, so that two sines are worked out at a time.
fn series(terms: &[Term; 60], a: MoonArgs) -> f64
    ensures { result ≡ added (row terms.now) a.factor (λ i. sine (angle a (row terms.now i))) 60 }
{
    let mut angles = [0.0; 60];
    put_angles(terms, a, &mut angles);
    add_terms(terms, a.factor, &trig::sines(&angles))
}

// The sum over the moon's terms.
fn moon_sum(a: MoonArgs) -> f64
    ensures { result ≡ moon_sum a }
{
    series(&MOON_TERMS, a)
}

// The additive terms: Venus, the flattening of the earth, Jupiter.
fn additive(t: f64, a: MoonArgs) -> f64
    ensures { result ≡ additive t a }
{
    let a1 = 119.75 + 131.849 * t;
    let a2 = 53.09 + 479264.290 * t;
    3958.0 * trig::sine(a1 * DEG)
        + 1962.0 * trig::sine((a.mean - a.node) * DEG)
        + 318.0 * trig::sine(a2 * DEG)
}

// The moon's longitude at t centuries after the beginning of 2000.
pub fn moon_at(t: f64) -> f64
    ensures { result ≡ moon_longitude t }
{
    let a = moon_args(t);
    norm360(a.mean + (moon_sum(a) + additive(t, a)) / 1000000.0)
}
