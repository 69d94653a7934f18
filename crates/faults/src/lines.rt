// A line of a rule file that is not the one due, in words: what was expected there, and what is plainly wrong with it.
ghost use Rattle.std.specs.Prelude.{◌≡◌, None, drop};
ghost use Rattle.text.specs.Written.{Wrote};
ghost use Rattle.naming.specs.Names as Names;
ghost use Rattle.faults.specs.Lines.{key_text, number_reason, end_byte, byte_reason, key_reason, reason_of, reason_text, line_fault_text};

use text::Cursor;

// What is plainly wrong with a line.
#[derive(Clone, Copy)]
pub enum Reason {
    FileEnds,
    Mark,
    CarriageReturn,
    Tab,
    Space,
    Zero,
    Large,
    NoFeed,
}

// Writes the key of the line that i come before.
#[tactic(auto, unfolding(crate::specs::Lines::key_text), using(text::proofs::Writes::then))]
fn put_key(out: &mut [u8], at: usize, i: usize) -> usize
    ensures { Wrote out.old at (key_text i) out.new result }
{
    let sign = text::put(out, at, rulefile::key(i));
    text::put(out, sign, b"=")
}

// Whether a text begins with a byte order mark.
#[tactic(auto, unfolding(naming::specs::Names::marked))]
fn marked(s: &[u8]) -> bool
    ensures { result ≡ Names.marked s.now }
{
    text::stands(s, 0, 239) & (text::stands(s, 1, 187) & text::stands(s, 2, 191))
}

// The last byte of the line with which a text begins, where it has one.
fn end_byte(s: &[u8]) -> Option<u8>
    ensures { result ≡ end_byte None s.now }
{
    let mut last = None;
    for b in s {
        if *b == b'\n' {
            return last;
        }
        last = Some(*b);
    }
    last
}

// What is wrong with a line that ends in this byte.
#[tactic(auto, unfolding(crate::specs::Lines::byte_reason))]
fn byte_reason(b: u8) -> Option<Reason>
    ensures { result ≡ byte_reason b }
{
    match b {
        b'\r' => Some(Reason::CarriageReturn),
        b'\t' => Some(Reason::Tab),
        b' ' => Some(Reason::Space),
        _ => None,
    }
}

// What is wrong with the number that begins at a place.
fn number_reason(s: &[u8], c: Cursor) -> Option<Reason>
    ensures { result ≡ number_reason (drop c.at s.now) }
{
    if let Some((_, end)) = c.decimal(s, 65535) {
        return end.at_end(s).then_some(Reason::NoFeed);
    }
    if text::stands(s, c.at, b'0') {
        return Some(Reason::Zero);
    }
    c.wide(s, 1)?;
    Some(Reason::Large)
}

// What is wrong with the number behind the key of the line that i come before.
fn key_reason(s: &[u8], i: usize) -> Option<Reason>
    ensures { result ≡ key_reason i s.now }
{
    let sign = text::start().pass(s, rulefile::key(i))?;
    let digits = sign.pass(s, b"=")?;
    number_reason(s, digits)
}

// What is wrong with the line that i come before, with which a text begins.
#[tactic(auto, unfolding(crate::specs::Lines::reason_of), using(crate::proofs::Reasons::empty_end))]
fn reason_of(s: &[u8], i: usize) -> Option<Reason>
    ensures { result ≡ reason_of i s.now }
{
    if s.is_empty() {
        return Some(Reason::FileEnds);
    }
    if (i == 0) & marked(s) {
        return Some(Reason::Mark);
    }
    end_byte(s)
        .and_then(byte_reason)
        .or_else(|| key_reason(s, i))
}

// What is plainly wrong with a line, in words behind what was expected there.
fn words(r: Option<Reason>) -> &'static [u8]
    ensures { result.now ≡ reason_text r }
{
    match r {
        None => b"\n",
        Some(Reason::FileEnds) => b": the file ends inside a rule\n",
        Some(Reason::Mark) => b": the file begins with a byte order mark\n",
        Some(Reason::CarriageReturn) => b": the line ends in CR LF, not in LF alone\n",
        Some(Reason::Tab) => b": the line ends in a tab\n",
        Some(Reason::Space) => b": the line ends in a space\n",
        Some(Reason::Zero) => b": the number has a leading zero\n",
        Some(Reason::Large) => b": the number is above 65535\n",
        Some(Reason::NoFeed) => b": the file's last line has no line feed\n",
    }
}

// Writes what was expected in the line that i come before, with which the text s begins, and what is plainly wrong there; answers the place after it.
pub fn put_line_fault(out: &mut [u8], at: usize, i: usize, s: &[u8]) -> usize
    ensures { Wrote out.old at (line_fault_text i s.now) out.new result }
{
    let a = text::put(out, at, b"expected ");
    let b = put_key(out, a, i);
    let c = text::put(out, b, b"NUMBER");
    text::put(out, c, words(reason_of(s, i)))
}
