// Sine, cosine, the arcs and tangent, on every f64. They refuse nothing.
ghost use Rattle.std.specs.Prelude.{◌≡◌};
ghost use Rattle.trig.specs.Trig as Trig;

// The sine of x radians.
#[unsafe(no_mangle)]
pub extern "C" fn panel_sine(x: f64, value: &mut f64) -> u16
    ensures code { result ≡ 0 }
    ensures value { value.new ≡ Trig.sine x }
{
    *value = trig::sine(x);
    0
}

// The cosine of x radians.
#[unsafe(no_mangle)]
pub extern "C" fn panel_cosine(x: f64, value: &mut f64) -> u16
    ensures code { result ≡ 0 }
    ensures value { value.new ≡ Trig.cosine x }
{
    *value = trig::cosine(x);
    0
}

// The tangent of x radians: sine over cosine.
#[unsafe(no_mangle)]
pub extern "C" fn panel_tangent(x: f64, value: &mut f64) -> u16
    ensures code { result ≡ 0 }
    ensures value { value.new ≡ Trig.tangent x }
{
    *value = trig::tangent(x);
    0
}

// The angle from -pi/2 to pi/2 whose sine is x.
#[unsafe(no_mangle)]
pub extern "C" fn panel_arcsine(x: f64, value: &mut f64) -> u16
    ensures code { result ≡ 0 }
    ensures value { value.new ≡ Trig.arcsine x }
{
    *value = trig::arcsine(x);
    0
}

// The angle from 0 to pi whose cosine is x.
#[unsafe(no_mangle)]
pub extern "C" fn panel_arccosine(x: f64, value: &mut f64) -> u16
    ensures code { result ≡ 0 }
    ensures value { value.new ≡ Trig.arccosine x }
{
    *value = trig::arccosine(x);
    0
}
