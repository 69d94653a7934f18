// Texts, numbers and dates on a page, one behind the other.
ghost use Rattle.std.specs.Prelude.{cond, [], ◌∷◌};
ghost use Rattle.text.specs.Digits.{run, digits};
ghost use Rattle.output.specs.Pieces.{Puts, ymd_pieces, date_pieces, clock_pieces, span_pieces, month_pieces};

use crate::Out;
use gregorian::Date;

// A text of at most 128 bytes.
pub fn put_text(o: Out, out: &mut [u8], s: &[u8]) -> Out
    ensures { Puts out.old o (s.now ∷ []) out.new result }
{
    let r = o.room(out, 128);
    Out {
        at: text::put(out, r.at, s),
        begun: false,
        failed: r.failed,
    }
}

// One text or the other.
pub fn put_either(o: Out, out: &mut [u8], first: bool, s: &[u8], t: &[u8]) -> Out
    ensures { Puts out.old o (cond first s.now t.now ∷ []) out.new result }
{
    if first {
        return put_text(o, out, s);
    }
    put_text(o, out, t)
}

// A number in the fewest digits.
pub fn put_number(o: Out, out: &mut [u8], n: u64) -> Out
    ensures { Puts out.old o (digits «n» ∷ []) out.new result }
{
    let r = o.room(out, 128);
    Out {
        at: text::put_decimal(out, r.at, n),
        begun: false,
        failed: r.failed,
    }
}

// The last digits of a number, so many.
fn put_wide(o: Out, out: &mut [u8], n: u64, digits: u8) -> Out
    ensures { Puts out.old o (run 10 digits «n» ∷ []) out.new result }
{
    let r = o.room(out, 128);
    Out {
        at: text::put_wide(out, r.at, n, digits),
        begun: false,
        failed: r.failed,
    }
}

// A text, and a number behind it.
pub fn put_labelled(o: Out, out: &mut [u8], s: &[u8], n: u64) -> Out
    ensures { Puts out.old o (s.now ∷ digits «n» ∷ []) out.new result }
{
    let a = put_text(o, out, s);
    put_number(a, out, n)
}

// A text, and so many digits behind it.
fn put_digits(o: Out, out: &mut [u8], s: &[u8], n: u64, digits: u8) -> Out
    ensures { Puts out.old o (s.now ∷ run 10 digits «n» ∷ []) out.new result }
{
    let a = put_text(o, out, s);
    put_wide(a, out, n, digits)
}

// A Gregorian date, YYYY-MM-DD.
fn put_ymd(o: Out, out: &mut [u8], d: Date) -> Out
    ensures { Puts out.old o (ymd_pieces d) out.new result }
{
    let a = put_wide(o, out, d.year as u64, 4);
    let b = put_digits(a, out, b"-", d.month as u64, 2);
    put_digits(b, out, b"-", d.day as u64, 2)
}

// The Gregorian date of a day number.
pub fn put_date(o: Out, out: &mut [u8], n: u32) -> Out
    ensures { Puts out.old o (date_pieces n) out.new result }
{
    match Date::from_day_number(n) {
        Ok(d) => put_ymd(o, out, d),
        Err(_) => put_text(o, out, b"no date"),
    }
}

// A minute of the day, HH:MM.
pub fn put_clock(o: Out, out: &mut [u8], minute: u16) -> Out
    ensures { Puts out.old o (clock_pieces minute) out.new result }
{
    let a = put_wide(o, out, (minute / 60) as u64, 2);
    put_digits(a, out, b":", (minute % 60) as u64, 2)
}

// So many hours and minutes.
pub fn put_span(o: Out, out: &mut [u8], minutes: u32) -> Out
    ensures { Puts out.old o (span_pieces minutes) out.new result }
{
    let a = put_number(o, out, (minutes / 60) as u64);
    let b = put_digits(a, out, b" h ", (minutes % 60) as u64, 2);
    put_text(b, out, b" min")
}

// A BS year and month, Y/M.
pub fn put_year_month(o: Out, out: &mut [u8], year: u16, month: u16) -> Out
    ensures { Puts out.old o (month_pieces year month) out.new result }
{
    let a = put_number(o, out, year as u64);
    put_labelled(a, out, b"/", month as u64)
}
