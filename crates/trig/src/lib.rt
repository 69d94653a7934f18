// Sine, cosine, the arcs and tangent on every f64, as the fixed sequences of f64 operations of docs/TRIG.md.
#![tactic(auto)]

ghost use Rattle.std.specs.Prelude.{◌≡◌, length, map};
ghost use Rattle.std.specs.Simd.Lanes.{zip2};
ghost use Rattle.trig.specs.Inner as Inner;
ghost use Rattle.trig.specs.Trig as Trig;

// The smaller of two numbers; b if one of them is no number.
#[tactic(auto, unfolding(crate::specs::Trig::least))]
fn least(a: f64, b: f64) -> f64
    ensures { result ≡ Trig.least a b }
{
    if a < b { a } else { b }
}

// The larger of two numbers; b if one of them is no number.
#[tactic(auto, unfolding(crate::specs::Trig::most))]
fn most(a: f64, b: f64) -> f64
    ensures { result ≡ Trig.most a b }
{
    if b < a { a } else { b }
}

// v, cut to -1 to 1.
#[tactic(auto, unfolding(crate::specs::Trig::clamp))]
fn clamp(v: f64) -> f64
    ensures { result ≡ Trig.clamp v }
{
    most(least(v, 1.0), -1.0)
}

// The size of x without its sign; 0.0 for both zeros.
fn magnitude(x: f64) -> f64
    ensures { result ≡ Trig.magnitude x }
{
    most(most(x, -x), 0.0)
}

// -v for a negative x, else x.
#[tactic(auto, unfolding(crate::specs::Trig::turned))]
fn turned(x: f64, v: f64) -> f64
    ensures { result ≡ Trig.turned x v }
{
    if x < 0.0 { -v } else { x }
}

// v with the sign of x; x itself if it is a zero.
#[tactic(auto, unfolding(crate::specs::Trig::signed))]
fn signed(x: f64, v: f64) -> f64
    ensures { result ≡ Trig.signed x v }
{
    let w = turned(x, v);
    if 0.0 < x { v } else { w }
}

// Whether sine and cosine serve the angle x.
fn in_range(x: f64) -> bool
    ensures { result ≡ Trig.in_range x }
{
    (-100000.0 <= x) & (x <= 100000.0)
}

// Whether x is from -1 to 1, so that the arcs serve it.
fn within_one(x: f64) -> bool
    ensures { result ≡ Trig.within_one x }
{
    (-1.0 <= x) & (x <= 1.0)
}

// The whole number nearest to x.
fn nearest_whole(x: f64) -> f64
    ensures { result ≡ Trig.nearest_whole x }
{
    x + 6755399441055744.0 - 6755399441055744.0
}

// 1.0 at an even k, -1.0 at an odd one.
#[tactic(auto, unfolding(crate::specs::Trig::turn_sign))]
fn turn_sign(k: f64) -> f64
    ensures { result ≡ Trig.turn_sign k }
{
    let p = k - (k + 13510798882111488.0 - 13510798882111488.0);
    1.0 - (p + p) * p
}

// (sin y - y) / y^3, for z = y^2.
#[tactic(auto, unfolding(crate::specs::Trig::sine_series))]
fn sine_series(z: f64) -> f64
    ensures { result ≡ Trig.sine_series z }
{
    let zz = z * z;
    let a = 0.008333333333333316 - z * 0.00019841269841254974;
    let b = 2.7557319219163234e-6 - z * 2.5052107616996182e-8;
    let c = 1.6058977312464087e-10 - z * 7.643970296798572e-13;
    let q = a + zz * b + zz * zz * (c + zz * 2.7314447669863995e-15);
    z * q - 0.16666666666666666
}

// The sine of a less h half turns, negated where k is odd, before it is cut to -1 to 1.
#[tactic(auto, unfolding(crate::specs::Trig::wave))]
fn wave(a: f64, k: f64, h: f64) -> f64
    ensures { result ≡ Trig.wave a k h }
{
    let y = a - h * 3.1415926535846666 - h * 5.126688303189038e-12;
    let z = y * y;
    let w = turn_sign(k) * y;
    w + w * z * sine_series(z)
}

// The wave of the sine of an angle that is not negative.
#[tactic(auto, unfolding(crate::specs::Inner::sine_wave))]
fn sine_wave(a: f64) -> f64
    ensures { result ≡ Inner.sine_wave a }
{
    let k = nearest_whole(a * 0.3183098861837907);
    wave(a, k, k)
}

// The sine of x from the wave of its size. It is worked out for every x and then taken or not.
#[tactic(auto, unfolding(crate::specs::Inner::sine_of_wave))]
fn sine_of_wave(x: f64, w: f64) -> f64
    ensures { result ≡ Inner.sine_of_wave x w }
{
    let v = signed(x, clamp(w));
    if in_range(x) { v } else { 0.0 }
}

// The sine of x radians.
pub fn sine(x: f64) -> f64
    ensures { result ≡ Trig.sine x }
{
    sine_of_wave(x, sine_wave(magnitude(x)))
}

// Each number without its sign.
fn drop_signs(values: &mut [f64])
    ensures { values.new ≡ map Trig.magnitude values.old }
{
    for v in values.iter_mut() {
        *v = magnitude(*v);
    }
}

// The wave of the sine of each angle. There is no comparison here, so that the compiler works out two at a time.
fn put_waves(values: &mut [f64])
    ensures { values.new ≡ map Inner.sine_wave values.old }
{
    for v in values.iter_mut() {
        *v = sine_wave(*v);
    }
}

// The sine of each angle from the wave of its size.
fn put_sines(angles: &[f64], values: &mut [f64])
    requires { length angles.now ≡ length values.old }
    ensures { values.new ≡ zip2 Inner.sine_of_wave angles.now values.old }
{
    for i in 0..angles.len() {
        values[i] = sine_of_wave(angles[i], values[i]);
    }
}

// The sines of several angles, in three passes: the one with the long formula has no comparison in it.
pub fn sines<const N: usize>(angles: &[f64; N]) -> [f64; N]
    ensures { result ≡ map Trig.sine angles.now }
{
    let mut values = *angles;
    drop_signs(&mut values);
    put_waves(&mut values);
    put_sines(angles, &mut values);
    values
}

// The cosine of x radians: the sine a quarter turn on.
#[tactic(auto, unfolding(crate::specs::Trig::swing, crate::specs::Trig::cosine_above, crate::specs::Trig::cosine))]
pub fn cosine(x: f64) -> f64
    ensures { result ≡ Trig.cosine x }
{
    let a = magnitude(x);
    let k = nearest_whole(a * 0.3183098861837907 + 0.5);
    let v = clamp(wave(a, k, k - 0.5));
    if in_range(x) { v } else { 0.0 }
}

// The tangent of x radians: sine over cosine.
#[tactic(auto, unfolding(crate::specs::Trig::tangent))]
pub fn tangent(x: f64) -> f64
    ensures { result ≡ Trig.tangent x }
{
    sine(x) / cosine(x)
}

// (arcsine y - y) / y^3, for z = y^2.
#[tactic(auto, unfolding(crate::specs::Trig::arc_series))]
fn arc_series(z: f64) -> f64
    ensures { result ≡ Trig.arc_series z }
{
    let a = z * 0.028169218060881414 - 0.010749050339697808;
    let b = z * (z * a + 0.01603551434914882) + 0.0078029494773533175;
    let c = z * (z * b + 0.011875494382636922) + 0.013929652902326633;
    let d = z * (z * c + 0.017355259955786323) + 0.02237204763174451;
    let e = z * (z * d + 0.03038194736709848) + 0.044642857103423646;
    z * (z * e + 0.07500000000020764) + 0.1666666666666665
}

// The arcsine of an x from -0.5 to 0.5.
#[tactic(auto, unfolding(crate::specs::Trig::arc_near))]
fn arc_near(x: f64) -> f64
    ensures { result ≡ Trig.arc_near x }
{
    let z = x * x;
    x + x * z * arc_series(z)
}

// The factor for the root of an m that is below an end.
#[tactic(auto, unfolding(crate::specs::Trig::lift))]
fn lift(m: f64, end: f64, by: f64) -> f64
    ensures { result ≡ Trig.lift m end by }
{
    if m < end { by } else { 1.0 }
}

// One over the root of an n from 0.25 to 1, nearly.
#[tactic(auto, unfolding(crate::specs::Trig::over_root))]
fn over_root(n: f64) -> f64
    ensures { result ≡ Trig.over_root n }
{
    let s = 2.125 - n * 1.21875;
    let t = s * (1.5 - 0.5 * n * s * s);
    let u = t * (1.5 - 0.5 * n * t * t);
    let v = u * (1.5 - 0.5 * n * u * u);
    v * (1.5 - 0.5 * n * v * v)
}

// The root of an m from 0.0 to 0.25. Powers of two bring m up to n, from 0.25 to 1, where its root is near; 0.0 gives 0.0.
#[tactic(auto, unfolding(crate::specs::Trig::root))]
fn root(m: f64) -> f64
    ensures { result ≡ Trig.root m }
{
    let a = lift(m, 3.725290298461914e-9, 16384.0);
    let ma = m * a * a;
    let b = lift(ma, 0.00006103515625, 128.0);
    let mb = ma * b * b;
    let c = lift(mb, 0.00390625, 16.0);
    let mc = mb * c * c;
    let d = lift(mc, 0.0625, 4.0);
    let md = mc * d * d;
    let e = lift(md, 0.25, 2.0);
    let r = over_root(md * e * e) * (a * b * c * d * e);
    let s = m * r;
    s + 0.5 * r * (m - s * s)
}

// The arccosine of an a from 0.5 to 1.
#[tactic(auto, unfolding(crate::specs::Trig::arc_far))]
fn arc_far(a: f64) -> f64
    ensures { result ≡ Trig.arc_far a }
{
    2.0 * arc_near(root((1.0 - a) * 0.5))
}

// The arcsine of an x from -1 to 1.
#[tactic(auto, unfolding(crate::specs::Trig::arcsine_within))]
fn arcsine_within(x: f64) -> f64
    ensures { result ≡ Trig.arcsine_within x }
{
    let a = magnitude(x);
    if a <= 0.5 {
        arc_near(x)
    } else {
        signed(x, 1.5707963267948966 - arc_far(a))
    }
}

// The arccosine of an x from -1 to 1.
#[tactic(auto, unfolding(crate::specs::Trig::arccosine_within))]
fn arccosine_within(x: f64) -> f64
    ensures { result ≡ Trig.arccosine_within x }
{
    let a = magnitude(x);
    if a <= 0.5 {
        1.5707963267948966 - arc_near(x)
    } else {
        if x < 0.0 {
            3.141592653589793 - arc_far(a)
        } else {
            arc_far(a)
        }
    }
}

// The angle from -pi/2 to pi/2 whose sine is x.
#[tactic(auto, unfolding(crate::specs::Trig::arcsine))]
pub fn arcsine(x: f64) -> f64
    ensures { result ≡ Trig.arcsine x }
{
    if within_one(x) {
        arcsine_within(x)
    } else {
        0.0
    }
}

// The angle from 0 to pi whose cosine is x.
#[tactic(auto, unfolding(crate::specs::Trig::arccosine))]
pub fn arccosine(x: f64) -> f64
    ensures { result ≡ Trig.arccosine x }
{
    if within_one(x) {
        arccosine_within(x)
    } else {
        0.0
    }
}
