// The comments behind rows: the year that one says.
ghost use Rattle.std.specs.Prelude.{◌≡◌, ◌≤◌, drop, length};
ghost use Rattle.fields.specs.Line.{comment, year_said};

use crate::row;
use text::Cursor;

// Where the comment of a line begins, without its mark and the spaces before its text.
fn comment_at(s: &[u8]) -> usize
    ensures { (result ≤ length s.now) × (drop result s.now ≡ comment s.now) }
{
    for (i, b) in s.iter().enumerate() {
        if *b == b'#' {
            return row::past_spaces(s, i + 1);
        }
    }
    s.len()
}

// The year that a line's comment is, if it is four digits and nothing else.
pub fn year_said(s: &[u8]) -> Option<u16>
    ensures { result ≡ year_said s.now }
{
    let from = comment_at(s);
    let (n, next) = (Cursor { at: from }).wide(s, 4)?;
    let end = row::past_spaces(s, next.at);
    if end < s.len() { None } else { Some(n as u16) }
}
