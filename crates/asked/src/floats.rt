// Floats as the words of a line have them, by their bits.
ghost use Rattle.std.specs.Prelude.{◌≡◌};
ghost use Rattle.std.specs.Float.{binary64};
ghost use Rattle.std.specs.Float.Ieee.{of_bits};

// The float with these bits. Every pattern of a NaN gives the same one.
pub fn float_of(bits: u64) -> f64
    ensures { result ≡ of_bits binary64 bits }
{
    if 9218868437227405312 < bits % 9223372036854775808 {
        return 0.0 / 0.0;
    }
    f64::from_bits(bits)
}
