// A line taken apart into its tag and the words after it.
ghost use Rattle.std.specs.Prelude.{◌≡◌, ◌≤◌, true, false, take, drop, set};
ghost use Rattle.text.specs.Reading.{Says, read_says, read_end};
ghost use Rattle.asked.specs.Line as Line;
ghost use Rattle.asked.specs.Line.{letter, letters, kind_of, with_kind, kinded, found_says, found_end, found_kind, unformed, words_of, whole_of};

use crate::floats;
use text::Cursor;

// The tag's code, the kinds of the words after it as decimal digits, the first first, and the value of each of the first fifteen words at its place, from 1
// on. The kinds are 1 for a number up to 65,535, 2 for a larger one, 3 for one with a minus sign, 4 for the bits of a float. Numbers up to 65,535 behind
// sixteen words leave the form as it is. A line out of form has tag 0.
#[derive(Clone, Copy)]
pub struct Words {
    pub tag: u64,
    pub form: u64,
    pub values: [u64; 16],
}

fn is_letter(b: u8) -> bool
    ensures { result ≡ letter b }
{
    (97 <= b) & (b <= 122)
}

// The letters that a line begins with, as a tag's code.
fn read_tag(s: &[u8]) -> Option<(u64, Cursor)>
    ensures { Says s.now (read_says s.now result) (read_end result) (letters 0 s.now) }
{
    let mut v: u64 = 0;
    for i in 0..s.len() {
        let b = s[i];
        if !is_letter(b) {
            return Some((v, Cursor { at: i }));
        }
        let d = (b - 96) as u64;
        if (18446744073709551615 - d) / 64 < v {
            return None;
        }
        v = v * 64 + d;
    }
    Some((v, Cursor { at: s.len() }))
}

// The kind of a number.
fn kind_of(n: u64) -> u64
    ensures { result ≡ kind_of «n» }
{
    if n <= 65535 { 1 } else { 2 }
}

// A reading as a word of a kind.
fn of_kind(kind: u64, r: Option<(u64, Cursor)>) -> Option<(u64, u64, Cursor)>
    ensures { result ≡ kinded kind r }
{
    let (n, next) = r?;
    Some((kind, n, next))
}

// A word after the tag.
fn read_word(s: &[u8], c: Cursor) -> Option<(u64, u64, Cursor)>
    ensures says { Says s.now (found_says s.now result) (found_end result) (Line.word (drop c.at s.now)) }
    ensures result_bound { found_kind result ≤ 9 }
{
    if let Some(d) = c.pass(s, b"0x") {
        return of_kind(4, d.hex(s));
    }
    if let Some(d) = c.pass(s, b"-") {
        return of_kind(3, d.decimal(s, 2147483648));
    }
    let (n, next) = c.decimal(s, 4294967295)?;
    Some((kind_of(n), n, next))
}

fn out_of_form() -> Words
    ensures { result ≡ unformed }
{
    Words {
        tag: 0,
        form: 0,
        values: [0; 16],
    }
}

// The form with a word more, of this kind: sixteen digits at most.
fn form_with(form: u64, kind: u64) -> u64
    requires { kind ≤ 9 }
    ensures { result ≡ with_kind form kind }
{
    if form < 1000000000000000 {
        return form * 10 + kind;
    }
    if kind == 1 {
        return form;
    }
    1000000000000000
}

// Stores x at place i, if there is such a place.
fn set_at(values: &mut [u64], i: usize, x: u64)
    ensures { values.new ≡ set values.old i x }
{
    if i < values.len() {
        values[i] = x;
    }
}

// The words of a whole text.
fn split_all(s: &[u8]) -> Words
    ensures { result ≡ words_of s.now }
{
    let Some((tag, after)) = read_tag(s) else {
        return out_of_form();
    };
    let mut at = after.at;
    let mut form: u64 = 0;
    let mut values = [0u64; 16];
    let mut k = 1;
    while at < s.len() {
        if k == 4096 {
            return out_of_form();
        }
        let Some(c) = (Cursor { at }).pass(s, b" ") else {
            return out_of_form();
        };
        let Some((kind, value, next)) = read_word(s, c) else {
            return out_of_form();
        };
        form = form_with(form, kind);
        set_at(&mut values, k, value);
        at = next.at;
        k += 1;
    }
    Words { tag, form, values }
}

// The words of the line that is the first n bytes of a buffer.
pub fn split(line: &[u8], n: usize) -> Words
    ensures { result ≡ words_of (take n line.now) }
{
    if n <= line.len() {
        return split_all(&line[..n]);
    }
    split_all(line)
}

impl Words {
    // The value at a place, and 0 past the sixteen places.
    fn value(self, i: usize) -> u64
        ensures { result ≡ Line.value_at self i }
    {
        self.values.get(i).copied().unwrap_or(0)
    }

    // The word at a place, if it is a number up to 65,535; else 0.
    pub fn small(self, i: usize) -> u16
        ensures { result ≡ Line.small self i }
    {
        u16::try_from(self.value(i)).unwrap_or(0)
    }

    // The word at a place, if it is a number that a u32 holds; else 0.
    pub fn large(self, i: usize) -> u32
        ensures { result ≡ Line.large self i }
    {
        u32::try_from(self.value(i)).unwrap_or(0)
    }

    // The word at a place, as the bits of a float.
    pub fn float(self, i: usize) -> f64
        ensures { result ≡ Line.float self i }
    {
        floats::float_of(self.value(i))
    }

    // The word at a place, with its sign.
    pub fn whole(self, i: usize, minus: bool) -> Option<i32>
        ensures { result ≡ whole_of minus (Line.value_at self i) }
    {
        let v = self.value(i);
        if minus {
            return below(v);
        }
        above(v)
    }
}

// A number from zero on.
fn above(v: u64) -> Option<i32>
    ensures { result ≡ whole_of false v }
{
    i32::try_from(v).ok()
}

// A number behind a minus sign.
fn below(v: u64) -> Option<i32>
    ensures { result ≡ whole_of true v }
{
    if v == 0 {
        return Some(0);
    }
    if v <= 2147483648 {
        return Some(-1 - (v - 1) as i32);
    }
    None
}
