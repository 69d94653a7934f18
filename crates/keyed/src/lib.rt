// Lines `key=NUMBER`, each ended by a line feed, read off a text by a cursor and written into a lent buffer. The caller gives the key.
#![tactic(auto)]

ghost use Rattle.std.specs.Prelude.{drop};
ghost use Rattle.text.specs.Reading.{Says, read_says, read_end};
ghost use Rattle.text.specs.Written.{Wrote};
ghost use Rattle.keyed.specs.Lines.{line_text, line};

use text::Cursor;

// The line under a key.
pub fn read_line(s: &[u8], c: Cursor, key: &[u8]) -> Option<(u16, Cursor)>
    ensures { Says s.now (read_says s.now result) (read_end result) (line key.now (drop c.at s.now)) }
{
    let digits = c.pass(s, key)?.pass(s, b"=")?;
    let (n, end) = digits.decimal(s, 65535)?;
    Some((n as u16, end.pass(s, b"\n")?))
}

// Writes the line of a number under a key, and answers the place after it.
pub fn put_line(out: &mut [u8], at: usize, key: &[u8], n: u16) -> usize
    ensures { Wrote out.old at (line_text key.now n) out.new result }
{
    let sign = text::put(out, at, key);
    let digits = text::put(out, sign, b"=");
    let end = text::put_decimal(out, digits, n as u64);
    text::put(out, end, b"\n")
}
