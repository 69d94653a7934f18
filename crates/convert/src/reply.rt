// The reply to a line, worked out and written.
ghost use Rattle.std.specs.Prelude.{◌≡◌, ◌++◌};
ghost use Rattle.conversion.specs.Own.{own_table};
ghost use Rattle.text.specs.Dashed.{dash};
ghost use Rattle.text.specs.Written.{Wrote};
ghost use Rattle.convert.specs.Lines.{number_text};
ghost use Rattle.convert.specs.Replies.{from_bs, from_ad_date, bs_reply, ad_reply, shown_text, outside_text, dates_text, reply_text, reply_to};

use crate::line;
use crate::line::Line;
use conversion::{BsDate, Table};
use gregorian::Date;
use paper::{Answer, Told};

// The two dates, the refusal, 0 for none, and what it tells.
#[derive(Clone, Copy)]
pub struct Reply {
    pub bs: Option<(u16, u16, u16)>,
    pub ad: Option<(u16, u16, u16)>,
    pub refusal: u16,
    pub told: Option<Told>,
}

// The rows of the own table.
const ROWS: [u16; 26] = [
    31, 31, 32, 31, 31, 31, 30, 29, 30, 29, 30, 30, 365, 31, 31, 32, 32, 31, 30, 30, 29, 30, 29,
    30, 31, 366,
];

// The own table besides its rows.
fn table() -> Table
    ensures { result ≡ own_table }
{
    Table {
        first_year: 100,
        year: 1950,
        month: 1,
        day: 1,
    }
}

// A BS date as read beside its Gregorian date, or beside none where it is refused, which tells no days.
fn beside_ad(y: u16, m: u16, d: u16, a: Answer<Date>) -> Reply
    ensures { result ≡ from_bs y m d a }
{
    match a {
        Ok(x) => Reply {
            bs: Some((y, m, d)),
            ad: Some((x.year, x.month, x.day)),
            refusal: 0,
            told: None,
        },
        Err(k) => Reply {
            bs: Some((y, m, d)),
            ad: None,
            refusal: k.number(),
            told: None,
        },
    }
}

// A Gregorian date as read beside its BS date, or beside none where it is refused.
fn beside_bs(y: u16, m: u16, d: u16, a: Answer<BsDate>) -> Reply
    ensures { result ≡ from_ad_date y m d a }
{
    match a {
        Ok(x) => Reply {
            bs: Some((x.year, x.month, x.day)),
            ad: Some((y, m, d)),
            refusal: 0,
            told: None,
        },
        Err(k) => Reply {
            bs: None,
            ad: Some((y, m, d)),
            refusal: k.number(),
            told: k.told(),
        },
    }
}

// The reply to a BS date.
fn bs_reply(y: u16, m: u16, d: u16) -> Reply
    ensures { result ≡ bs_reply y m d }
{
    let rows = ROWS;
    let date = BsDate {
        year: y,
        month: m,
        day: d,
    };
    beside_ad(y, m, d, conversion::bs_to_ad(table(), &rows, date))
}

// The reply to a Gregorian date.
fn ad_reply(y: u16, m: u16, d: u16) -> Reply
    ensures { result ≡ ad_reply y m d }
{
    let rows = ROWS;
    beside_bs(y, m, d, conversion::ad_to_bs(table(), &rows, y, m, d))
}

// Writes a number in so many digits, or in the fewest for width 0.
fn put_number(out: &mut [u8], at: usize, n: u16, width: u8) -> usize
    ensures { Wrote out.old at (number_text width n) out.new result }
{
    if width == 0 {
        return text::put_decimal(out, at, n as u64);
    }
    text::put_wide(out, at, n as u64, width)
}

// The same behind a dash.
fn put_next(out: &mut [u8], at: usize, n: u16, width: u8) -> usize
    ensures { Wrote out.old at (dash ++ number_text width n) out.new result }
{
    let a = text::put(out, at, b"-");
    put_number(out, a, n, width)
}

// Writes a date with numbers of these widths, or none.
fn put_shown(
    out: &mut [u8],
    at: usize,
    shown: Option<(u16, u16, u16)>,
    first: u8,
    others: u8,
) -> usize
    ensures { Wrote out.old at (shown_text «first» others shown) out.new result }
{
    match shown {
        Some((y, m, d)) => {
            let a = put_number(out, at, y, first);
            let b = put_next(out, a, m, others);
            put_next(out, b, d, others)
        }
        None => text::put(out, at, b"none"),
    }
}

// Writes how many days a date lies after the last day of the table, or behind a minus sign before its first; 0 where nothing is told.
fn put_outside(out: &mut [u8], at: usize, told: Option<Told>) -> usize
    ensures { Wrote out.old at (outside_text told) out.new result }
{
    let Some(told) = told else {
        return text::put(out, at, b"0");
    };
    match told {
        Told::Before(days) => {
            let a = text::put(out, at, b"-");
            text::put_decimal(out, a, days as u64)
        }
        Told::After(days) => text::put_decimal(out, at, days as u64),
        Told::Line(_) => text::put(out, at, b"0"),
    }
}

// Writes the two dates, each behind its name.
fn put_dates(
    out: &mut [u8],
    at: usize,
    bs: Option<(u16, u16, u16)>,
    ad: Option<(u16, u16, u16)>,
) -> usize
    ensures { Wrote out.old at (dates_text bs ad) out.new result }
{
    let a = text::put(out, at, b"bs=");
    let b = put_shown(out, a, bs, 0, 0);
    let c = text::put(out, b, b"\nad=");
    put_shown(out, c, ad, 4, 2)
}

// Writes the four lines of a reply.
fn put_reply(out: &mut [u8], at: usize, reply: Reply) -> usize
    ensures { Wrote out.old at (reply_text reply) out.new result }
{
    let bs = reply.bs;
    let ad = reply.ad;
    let told = reply.told;
    let a = put_dates(out, at, bs, ad);
    let b = text::put(out, a, b"\nrefusal=");
    let c = text::put_decimal(out, b, reply.refusal as u64);
    let d = text::put(out, c, b"\noutside=");
    let e = put_outside(out, d, told);
    text::put(out, e, b"\n")
}

// Writes the reply to a line from a place on, and answers the place after it. A line of another form is skipped.
pub fn put_line(out: &mut [u8], at: usize, s: &[u8]) -> usize
    ensures { Wrote out.old at (reply_to s.now) out.new result }
{
    match line::read_line(s) {
        Some(Line::Bs(y, m, d)) => put_reply(out, at, bs_reply(y, m, d)),
        Some(Line::Ad(y, m, d)) => put_reply(out, at, ad_reply(y, m, d)),
        None => at,
    }
}
