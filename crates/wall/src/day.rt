// The page of a day.
ghost use Rattle.text.specs.Written.{Wrote};
ghost use Rattle.std.specs.Prelude.{◌≤◌};
ghost use Rattle.wall.specs.Pages.{day_title, date_line, tithi_text, end_text, sun_text, reading_text, holiday_text, day_page};

use crate::cells::put_mark;
use crate::columns::{number, put_clock, put_full_date};
use crate::lists::put_festivals_on;
use crate::month::put_month_and_year;
use crate::words::put_weekday;

// Writes the weekday and the BS date of a cell.
fn put_day_title(out: &mut [u8], at: usize, year: u16, month: u16, cells: &[u16], i: usize) -> usize
    requires { i ≤ 4096 }
    ensures { Wrote out.old at (day_title year month cells.now i) out.new result }
{
    let a = put_weekday(out, at, number(cells, i, 4), 9);
    let b = text::put(out, a, b", ");
    let c = text::put_decimal(out, b, number(cells, i, 0) as u64);
    let d = text::put(out, c, b" ");
    let e = put_month_and_year(out, d, year, month);
    text::put(out, e, b" BS\n")
}

// Writes the Gregorian date of a cell.
fn put_date_line(out: &mut [u8], at: usize, cells: &[u16], i: usize) -> usize
    requires { i ≤ 4096 }
    ensures { Wrote out.old at (date_line cells.now i) out.new result }
{
    let year = number(cells, i, 1);
    let month = number(cells, i, 2);
    let a = put_full_date(out, at, year, month, number(cells, i, 3));
    text::put(out, a, b"\n")
}

// Writes a tithi by its number and its half.
fn put_tithi(out: &mut [u8], at: usize, tithi: u16) -> usize
    ensures { Wrote out.old at (tithi_text tithi) out.new result }
{
    let a = text::put(out, at, b"tithi    ");
    let b = text::put_decimal(out, a, tithi as u64);
    if tithi < 16 {
        let c = text::put(out, b, b", waxing half ");
        return text::put_decimal(out, c, tithi as u64);
    }
    let c = text::put(out, b, b", waning half ");
    text::put_decimal(out, c, (tithi - 15) as u64)
}

// Writes when a tithi ends.
fn put_end(out: &mut [u8], at: usize, end: u16) -> usize
    ensures { Wrote out.old at (end_text end) out.new result }
{
    if end < 1440 {
        let a = text::put(out, at, b" of 15, ends at ");
        let b = put_clock(out, a, end);
        return text::put(out, b, b"\n");
    }
    text::put(out, at, b" of 15, ends on a later day\n")
}

// Writes sunrise and sunset.
fn put_sun(out: &mut [u8], at: usize, rise: u16, set: u16) -> usize
    ensures { Wrote out.old at (sun_text rise «set») out.new result }
{
    let a = text::put(out, at, b"sunrise  ");
    let b = put_clock(out, a, rise);
    let c = text::put(out, b, b"\nsunset   ");
    let d = put_clock(out, c, set);
    text::put(out, d, b"\n")
}

// Writes the tithi of a cell, when it ends, sunrise and sunset.
fn put_reading(out: &mut [u8], at: usize, cells: &[u16], i: usize) -> usize
    requires { i ≤ 4096 }
    ensures { Wrote out.old at (reading_text cells.now i) out.new result }
{
    let a = put_tithi(out, at, number(cells, i, 7));
    let b = put_end(out, a, number(cells, i, 8));
    put_sun(out, b, number(cells, i, 9), number(cells, i, 10))
}

// Writes whether the day of a cell is a holiday, and of a Saturday that it is one.
fn put_holiday(out: &mut [u8], at: usize, cells: &[u16], i: usize) -> usize
    requires { i ≤ 4096 }
    ensures { Wrote out.old at (holiday_text cells.now i) out.new result }
{
    let holiday = number(cells, i, 6);
    if number(cells, i, 4) == 6 {
        return put_mark(
            out,
            at,
            holiday,
            b"holiday  yes (Saturday)\n",
            b"holiday  no\n",
        );
    }
    put_mark(out, at, holiday, b"holiday  yes\n", b"holiday  no\n")
}

// Writes the day of a cell of a month from a place on, as far as the buffer goes, and answers the place after it.
pub fn put_day_page(
    out: &mut [u8],
    at: usize,
    year: u16,
    month: u16,
    cell: u8,
    names: &[u8],
    cells: &[u16],
    festivals: &[u16],
) -> usize
    ensures { Wrote out.old at
        (day_page year month cell names.now cells.now festivals.now) out.new result }
{
    let i = cell as usize;
    let a = put_day_title(out, at, year, month, cells, i);
    let b = put_date_line(out, a, cells, i);
    let c = put_reading(out, b, cells, i);
    let d = put_holiday(out, c, cells, i);
    put_festivals_on(out, d, names, cells, festivals, i)
}
