// Floats by their bits, as the words of a line have them.
ghost use Rattle.text.specs.Written.{Wrote};
ghost use Rattle.output.specs.Floats.{float_text};

// Writes a float as 0x and sixteen hexadecimal digits, or as nan.
pub fn put_float(out: &mut [u8], at: usize, x: f64) -> usize
    ensures { Wrote out.old at (float_text x) out.new result }
{
    if x == x {
        let next = text::put(out, at, b"0x");
        return text::put_hex(out, next, f64::to_bits(x));
    }
    text::put(out, at, b"nan")
}
