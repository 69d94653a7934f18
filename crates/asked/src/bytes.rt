// The bytes that a line `octets` carries.
ghost use Rattle.std.specs.Prelude.{◌≡◌, ◌≤◌, [], take, drop};
ghost use Rattle.text.specs.Digits.{fixed};
ghost use Rattle.text.specs.Reading.{Says, read_says, read_end};
ghost use Rattle.text.specs.Written.{Wrote};
ghost use Rattle.asked.specs.Octets.{octets, known, octets_in, held, octet_of, bytes_of, read_value};

use text::Cursor;

// So many bytes, at the front of the places; the places behind them hold 0.
#[derive(Clone, Copy)]
pub struct Octets {
    pub count: usize,
    pub bytes: [u8; 64],
}

fn no_octets() -> Octets
    ensures { result ≡ held [] }
{
    Octets {
        count: 0,
        bytes: [0; 64],
    }
}

// The byte that two hexadecimal digits are: they are read as the last of sixteen.
fn octet_at(s: &[u8], c: Cursor) -> Option<(u64, Cursor)>
    ensures says { Says s.now (read_says s.now result) (read_end result) (fixed 16 2 0 (drop c.at s.now)) }
    ensures result_bound { read_value result ≤ 255 }
{
    let at = c.at;
    if s.len() <= at {
        return None;
    }
    if s.len() - at < 2 {
        return None;
    }
    let mut digits = [48u8; 16];
    digits[14] = s[at];
    digits[15] = s[at + 1];
    let (n, _) = text::start().hex(&digits)?;
    Some((n, Cursor { at: at + 2 }))
}

// The bytes from a place to the end, at most 64; none where the text has another form.
fn read_octets(s: &[u8], c: Cursor) -> Octets
    ensures { result ≡ held (known (octets 64 (drop c.at s.now))) }
{
    let mut at = c.at;
    let mut count: usize = 0;
    let mut bytes = [0u8; 64];
    while at < s.len() {
        if count == 64 {
            return no_octets();
        }
        let Some((b, next)) = octet_at(s, Cursor { at }) else {
            return no_octets();
        };
        bytes[count] = b as u8;
        at = next.at;
        count += 1;
    }
    Octets { count, bytes }
}

// The bytes of a whole text.
fn octets_of(s: &[u8]) -> Octets
    ensures { result ≡ held (octets_in s.now) }
{
    let Some(c) = text::start().pass(s, b"octets ") else {
        return no_octets();
    };
    read_octets(s, c)
}

// The bytes of the line that is the first n bytes of a buffer; none where it is no line `octets` in form.
pub fn octets_in(line: &[u8], n: usize) -> Octets
    ensures { result ≡ held (octets_in (take n line.now)) }
{
    if n <= line.len() {
        return octets_of(&line[..n]);
    }
    octets_of(line)
}

impl Octets {
    // The byte at a place, and 0 past the places.
    fn octet(self, i: usize) -> u8
        ensures { result ≡ octet_of self i }
    {
        self.bytes.get(i).copied().unwrap_or(0)
    }

    // Stores the bytes in out, from a place on, and answers the place after them.
    pub fn put(self, out: &mut [u8], from: usize) -> usize
        ensures { Wrote out.old from (bytes_of self) out.new result }
    {
        let mut at = from;
        for i in 0..self.count {
            at = text::put(out, at, &[self.octet(i)]);
        }
        at
    }
}
