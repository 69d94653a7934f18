// Yes or no, and why, as one line.
ghost use Rattle.text.specs.Written.{Wrote};
ghost use Rattle.gate.specs.Lines.{festival_line, line_of};

use crate::reasons::Reason;

// Writes the line of a holiday by the name of its festival.
fn put_festival(out: &mut [u8], at: usize, n: u16, names: &[u8]) -> usize
    ensures { Wrote out.old at (festival_line names.now «n») out.new result }
{
    let a = text::put(out, at, b"yes (");
    let b = wall::put_festival_name(out, a, n, names);
    text::put(out, b, b")\n")
}

// Writes whether a day is a holiday, and why, and answers the place after it.
pub fn put_reason(out: &mut [u8], at: usize, reason: Option<Reason>, names: &[u8]) -> usize
    ensures { Wrote out.old at (line_of names.now reason) out.new result }
{
    let Some(why) = reason else {
        return text::put(out, at, b"no\n");
    };
    match why {
        Reason::Saturday => text::put(out, at, b"yes (Saturday)\n"),
        Reason::Festival(n) => put_festival(out, at, n, names),
    }
}
