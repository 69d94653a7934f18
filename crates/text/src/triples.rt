// Three numbers with dashes between them, as dates are written.
ghost use Rattle.std.specs.Prelude.{◌≡◌, drop};
ghost use Rattle.text.specs.Digits.{behind};
ghost use Rattle.text.specs.Reading.{Says, read_says, read_end};
ghost use Rattle.text.specs.Dashed.{dash, number, numbers, ended};

use crate::reading::Cursor;

// A number of so many digits, four at most; for width 0 one up to 65,535 without leading zeros.
fn read_number(s: &[u8], c: Cursor, width: u8) -> Option<(u64, Cursor)>
    ensures { Says s.now (read_says s.now result) (read_end result) (number width (drop c.at s.now)) }
{
    if width == 0 {
        return c.decimal(s, 65535);
    }
    if width <= 4 {
        return c.wide(s, width);
    }
    None
}

// The same behind a dash.
fn read_next(s: &[u8], c: Cursor, width: u8) -> Option<(u64, Cursor)>
    ensures { Says s.now (read_says s.now result) (read_end result) (behind dash (number width) (drop c.at s.now)) }
{
    read_number(s, c.pass(s, b"-")?, width)
}

// Three numbers with a dash between them, to the end of the text: the first of one width, the others of another.
pub fn dashed(s: &[u8], c: Cursor, first: u8, others: u8) -> Option<(u16, u16, u16)>
    ensures { result ≡ ended (numbers «first» others (drop c.at s.now)) }
{
    let (y, a) = read_number(s, c, first)?;
    let (m, b) = read_next(s, a, others)?;
    let (d, end) = read_next(s, b, others)?;
    if end.at_end(s) {
        Some((y as u16, m as u16, d as u16))
    } else {
        None
    }
}
