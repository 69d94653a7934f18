// Texts and numbers, written into a lent buffer from a place on. What lies past the end of the buffer is not stored.
ghost use Rattle.std.specs.Prelude.{◌≡◌, ◌<◌, ◌≤◌, set};
ghost use Rattle.text.specs.Digits as Digits;
ghost use Rattle.text.specs.Digits.{run, digits};
ghost use Rattle.text.specs.Written.{Wrote};

// Stores src in out, from at on, and answers the place after it.
pub fn put(out: &mut [u8], at: usize, src: &[u8]) -> usize
    ensures { Wrote out.old at src.now out.new result }
{
    // A loop with two ways out: the compiler makes no call of the C library's `memmove` of it, which C that links the engine would have to bring.
    let mut next = at;
    for i in 0..src.len() {
        if out.len() <= next {
            return next;
        }
        out[next] = src[i];
        next += 1;
    }
    next
}

// Stores one byte where there is room.
fn store(out: &mut [u8], at: usize, b: u8)
    ensures { out.new ≡ set out.old at b }
{
    if at < out.len() {
        out[at] = b;
    }
}

// The byte of a digit.
fn mark(d: u64) -> u8
    requires { d < 16 }
    ensures { result ≡ Digits.mark d }
{
    if d < 10 { 48 + d as u8 } else { 87 + d as u8 }
}

// Writes the last k digits of n in a base, the last first, and answers the place after them.
fn put_run(n: u64, base: u64, k: usize, out: &mut [u8], at: usize) -> usize
    requires { (0 < base) × (base ≤ 16) × (k ≤ 255) }
    ensures { Wrote out.old at (run base k «n») out.new result }
{
    if out.len() <= at {
        return at;
    }
    let mut rest = n;
    for i in 0..k {
        store(out, at + (k - 1 - i), mark(rest % base));
        rest /= base;
    }
    out.len().min(at + k)
}

// How many decimal digits n takes.
fn places(n: u64) -> usize
    ensures { result ≡ Digits.places «n» }
{
    let mut rest = n;
    let mut k = 1;
    while 10 <= rest {
        rest /= 10;
        k += 1;
    }
    k
}

// Writes a decimal number in the fewest digits.
pub fn put_decimal(out: &mut [u8], at: usize, n: u64) -> usize
    ensures { Wrote out.old at (digits «n») out.new result }
{
    put_run(n, 10, places(n), out, at)
}

// Writes the last k decimal digits of a number.
pub fn put_wide(out: &mut [u8], at: usize, n: u64, k: u8) -> usize
    ensures { Wrote out.old at (run 10 k «n») out.new result }
{
    put_run(n, 10, k as usize, out, at)
}

// Writes a number as sixteen hexadecimal digits in lower case.
pub fn put_hex(out: &mut [u8], at: usize, n: u64) -> usize
    ensures { Wrote out.old at (run 16 16 «n») out.new result }
{
    put_run(n, 16, 16, out, at)
}
