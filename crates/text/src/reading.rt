// Numbers and fixed texts, read off a slice from a place on.
ghost use Rattle.std.specs.Prelude.{◌≡◌, ◌^◌, ◌<◌, ◌≤◌, pos, negsuc, length, drop};
ghost use Rattle.text.specs.Digits as Digits;
ghost use Rattle.text.specs.Digits.{digit_of, starts_digit, starts, is_end, past, fixed, whole_number};
ghost use Rattle.text.specs.Reading.{Says, read_says, read_end, passed_says, passed_end};

// A place in a text.
#[derive(Clone, Copy)]
pub struct Cursor {
    pub at: usize,
}

pub fn start() -> Cursor
    ensures { result.at ≡ 0 }
{
    Cursor { at: 0 }
}

// What a byte is worth as a digit of a base, where it is one.
#[tactic(auto, unfolding(crate::specs::Digits::worth))]
fn digit(b: u8, base: u64) -> Option<u64>
    requires { base ≤ 16 }
    ensures { result ≡ digit_of base b }
{
    let worth = match b {
        b'0'..=b'9' => (b - b'0') as u64,
        b'a'..=b'f' => (b - b'a') as u64 + 10,
        _ => return None,
    };
    if worth < base { Some(worth) } else { None }
}

// What stands from a place on; nothing where the place lies past the end.
pub fn behind(s: &[u8], at: usize) -> &[u8]
    ensures { result.now ≡ drop at s.now }
{
    &s[at.min(s.len())..]
}

// Whether the byte b stands at a place.
pub fn stands(s: &[u8], at: usize, b: u8) -> bool
    ensures { result ≡ starts b (drop at s.now) }
{
    at < s.len() && s[at] == b
}

// Whether a decimal digit stands at a place.
fn stands_digit(s: &[u8], at: usize) -> bool
    ensures { result ≡ starts_digit (drop at s.now) }
{
    at < s.len() && digit(s[at], 10).is_some()
}

// A place in a text, or its end where the place lies past it.
fn within(s: &[u8], at: usize) -> usize
    ensures { (result ≤ length s.now) × (drop result s.now ≡ drop at s.now) }
{
    at.min(s.len())
}

// Exactly k digits in a base.
fn read_fixed(s: &[u8], at: usize, base: u64, k: usize) -> Option<(u64, Cursor)>
    requires { (0 < base) × (base ≤ 16) × (base ^ k ≤ 2 ^ 64) }
    ensures { Says s.now (read_says s.now result) (read_end result) (fixed base k 0 (drop at s.now)) }
{
    let from = within(s, at);
    if s.len() - from < k {
        return None;
    }
    let mut v: u64 = 0;
    for b in &s[from..from + k] {
        v = v * base + digit(*b, base)?;
    }
    Some((v, Cursor { at: from + k }))
}

// All decimal digits that stand from a place on, as long as the number is at most the limit.
fn read_all(s: &[u8], from: usize, limit: u64) -> Option<(u64, Cursor)>
    requires { from ≤ length s.now }
    ensures { Says s.now (read_says s.now result) (read_end result) (Digits.scan limit 0 (drop from s.now)) }
{
    let mut v: u64 = 0;
    for (i, b) in s[from..].iter().enumerate() {
        let Some(d) = digit(*b, 10) else {
            return Some((v, Cursor { at: from + i }));
        };
        if limit / 10 < v {
            return None;
        }
        if limit - v * 10 < d {
            return None;
        }
        v = v * 10 + d;
    }
    Some((v, Cursor { at: s.len() }))
}

// A number from zero on.
fn from_zero(n: u64) -> i32
    requires { n ≤ 2147483647 }
    ensures { result ≡ pos «n» }
{
    n as i32
}

// The number that lies n below -1.
fn below_zero(n: u64) -> i32
    requires { n ≤ 2147483647 }
    ensures { result ≡ negsuc «n» }
{
    -1 - n as i32
}

impl Cursor {
    // Whether nothing is left.
    pub fn at_end(self, s: &[u8]) -> bool
        ensures { result ≡ is_end (drop self.at s.now) }
    {
        s.len() <= self.at
    }

    // Past exactly this text.
    pub fn pass(self, s: &[u8], text: &[u8]) -> Option<Cursor>
        ensures { Says s.now (passed_says s.now result) (passed_end result) (past text.now (drop self.at s.now)) }
    {
        let from = within(s, self.at);
        if s[from..].starts_with(text) {
            Some(Cursor {
                at: from + text.len(),
            })
        } else {
            None
        }
    }

    // A decimal number at most the limit, without leading zeros.
    pub fn decimal(self, s: &[u8], limit: u64) -> Option<(u64, Cursor)>
        ensures { Says s.now (read_says s.now result) (read_end result) (Digits.decimal limit (drop self.at s.now)) }
    {
        let at = self.at;
        if stands(s, at, b'0') {
            if stands_digit(s, at + 1) {
                return None;
            }
            return Some((0, Cursor { at: at + 1 }));
        }
        if stands_digit(s, at) {
            return read_all(s, at, limit);
        }
        None
    }

    // Exactly k decimal digits, nineteen at most.
    pub fn wide(self, s: &[u8], k: u8) -> Option<(u64, Cursor)>
        ensures { Says s.now (read_says s.now result) (read_end result) (Digits.wide k (drop self.at s.now)) }
    {
        if k <= 19 {
            return read_fixed(s, self.at, 10, k as usize);
        }
        None
    }

    // Sixteen hexadecimal digits in lower case.
    pub fn hex(self, s: &[u8]) -> Option<(u64, Cursor)>
        ensures { Says s.now (read_says s.now result) (read_end result) (fixed 16 16 0 (drop self.at s.now)) }
    {
        read_fixed(s, self.at, 16, 16)
    }

    // A decimal number of an i32, without leading zeros, with a minus sign below zero.
    pub fn signed(self, s: &[u8]) -> Option<(i32, Cursor)>
        ensures { Says s.now (read_says s.now result) (read_end result) (Digits.signed (drop self.at s.now)) }
    {
        let at = self.at;
        if stands(s, at, b'-') {
            let (n, next) = (Cursor { at: at + 1 }).decimal(s, 2147483648)?;
            if n == 0 {
                return None;
            }
            return Some((below_zero(n - 1), next));
        }
        let (n, next) = self.decimal(s, 2147483647)?;
        Some((from_zero(n), next))
    }
}

// The number at most the limit that a whole text is, without leading zeros.
pub fn whole_number(s: &[u8], limit: u16) -> Option<u16>
    ensures { result ≡ whole_number limit s.now }
{
    let (n, next) = start().decimal(s, limit as u64)?;
    if next.at_end(s) { Some(n as u16) } else { None }
}
