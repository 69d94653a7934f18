// Bytes by their digits, as the words of a line have them.
ghost use Rattle.text.specs.Digits.{run};
ghost use Rattle.text.specs.Written.{Wrote};
ghost use Rattle.output.specs.Octets.{octets_text};

// Writes a byte as two hexadecimal digits in lower case: the last of the sixteen that a number has.
pub fn put_octet(out: &mut [u8], at: usize, b: u8) -> usize
    ensures { Wrote out.old at (run 16 2 b) out.new result }
{
    let mut digits = [0u8; 16];
    text::put_hex(&mut digits, 0, b as u64);
    text::put(out, at, &digits[14..])
}

// Writes bytes, two digits each.
pub fn put_octets(out: &mut [u8], from: usize, list: &[u8]) -> usize
    ensures { Wrote out.old from (octets_text list.now) out.new result }
{
    let mut at = from;
    for b in list {
        at = put_octet(out, at, *b);
    }
    at
}
