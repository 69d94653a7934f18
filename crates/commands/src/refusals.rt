// Why there is no page, in words.
ghost use Rattle.text.specs.Written.{Wrote};
ghost use Rattle.commands.specs.Refusals.{form_text, reason_text, refusal_text};

use crate::outside::{put_after, put_before};
use gregorian::Date;
use paper::Refusal;

// Writes which line is out of form.
fn put_out_of_form(out: &mut [u8], at: usize, line: usize) -> usize
    ensures { Wrote out.old at (form_text line) out.new result }
{
    let a = text::put(out, at, b"line ");
    let b = text::put_decimal(out, a, line as u64);
    text::put(out, b, b" is out of form")
}

// Writes what a refusal means, of the Gregorian date that was asked where it tells how far outside that lies.
fn put_reason(out: &mut [u8], at: usize, why: Refusal, date: Date) -> usize
    ensures { Wrote out.old at (reason_text date why) out.new result }
{
    match why {
        Refusal::BadTable => text::put(out, at, b"the year table is not good"),
        Refusal::BadRules => text::put(out, at, b"the rules are not good"),
        Refusal::NoSuchDate => text::put(
            out,
            at,
            b"there is no such Gregorian date from 1900 to 2149",
        ),
        Refusal::NoYear => text::put(out, at, b"the BS year is not in the year table"),
        Refusal::NoMonth => text::put(out, at, b"the BS month is not 1 to 12"),
        Refusal::NoDay => text::put(out, at, b"the BS day is 0 or past the month's end"),
        Refusal::Before(days) => put_before(out, at, date, days),
        Refusal::After(days) => put_after(out, at, date, days),
        Refusal::OutOfRange => text::put(out, at, b"an instant is out of range"),
        Refusal::NoRoom => text::put(out, at, b"the page is longer than this program can hold"),
        Refusal::OffTable => text::put(out, at, b"the month is not in the year table"),
        Refusal::NotEnded => text::put(out, at, b"a search did not end"),
        Refusal::OutOfForm(line) => put_out_of_form(out, at, line),
        Refusal::NoRow => text::put(out, at, b"no year row is held yet"),
    }
}

// Writes the line that says why there is no page of what was asked, a Gregorian date or another day, and answers the place after it.
pub fn put_refusal(out: &mut [u8], at: usize, why: Refusal, date: Date) -> usize
    ensures { Wrote out.old at (refusal_text date why) out.new result }
{
    let a = text::put(out, at, b"patro: refused, ");
    let b = text::put_decimal(out, a, why.number() as u64);
    let c = text::put(out, b, b": ");
    let d = put_reason(out, c, why, date);
    text::put(out, d, b"\n")
}
