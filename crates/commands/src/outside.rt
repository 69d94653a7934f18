// How far outside the table a Gregorian date lies, in words.
ghost use Rattle.std.specs.Prelude.{◌≡◌};
ghost use Rattle.text.specs.Written.{Wrote};
ghost use Rattle.commands.specs.Outside.{dashed_text, count_text, day_text, number_of, later, earlier, side_text, before_text, after_text};

use gregorian::Date;
use std::num::wrapping_add_u32;

// Writes a date as YYYY-MM-DD.
fn put_dashed(out: &mut [u8], at: usize, date: Date) -> usize
    ensures { Wrote out.old at (dashed_text date) out.new result }
{
    let a = text::put_wide(out, at, date.year as u64, 4);
    let b = text::put(out, a, b"-");
    let c = text::put_wide(out, b, date.month as u64, 2);
    let d = text::put(out, c, b"-");
    text::put_wide(out, d, date.day as u64, 2)
}

// Writes how many days.
fn put_count(out: &mut [u8], at: usize, days: u32) -> usize
    ensures { Wrote out.old at (count_text days) out.new result }
{
    let a = text::put_decimal(out, at, days as u64);
    if days == 1 {
        return text::put(out, a, b" day");
    }
    text::put(out, a, b" days")
}

// Writes the Gregorian date of a day number in full.
#[tactic(auto, unfolding(crate::specs::Outside::day_text))]
fn put_day(out: &mut [u8], at: usize, n: u32) -> usize
    ensures { Wrote out.old at (day_text «n») out.new result }
{
    match Date::from_day_number(n) {
        Ok(d) => wall::put_full_date(out, at, d.year, d.month, d.day),
        Err(_) => text::put(out, at, b"no date"),
    }
}

// The number of a date; 0 of what is none.
fn number_of(date: Date) -> u32
    ensures { result ≡ number_of date }
{
    date.day_number().unwrap_or(0)
}

// The number of the day so many days after a date.
fn later_day(date: Date, days: u32) -> u32
    ensures { result ≡ later date days }
{
    wrapping_add_u32(number_of(date), days)
}

// The number of the day so many days before a date.
fn earlier_day(date: Date, days: u32) -> u32
    ensures { result ≡ earlier date days }
{
    number_of(date).saturating_sub(days)
}

// Writes a date, how many days, and on which side of which day they lie.
fn put_side(out: &mut [u8], at: usize, date: Date, days: u32, side: &[u8], n: u32) -> usize
    ensures { Wrote out.old at (side_text date days side.now «n») out.new result }
{
    let a = put_dashed(out, at, date);
    let b = text::put(out, a, b" is ");
    let c = put_count(out, b, days);
    let d = text::put(out, c, side);
    put_day(out, d, n)
}

// Writes that a date lies so many days before the first day of the table, and which day that is.
#[tactic(auto, unfolding(crate::specs::Outside::before_text))]
pub fn put_before(out: &mut [u8], at: usize, date: Date, days: u32) -> usize
    ensures { Wrote out.old at (before_text date days) out.new result }
{
    let first = later_day(date, days);
    put_side(
        out,
        at,
        date,
        days,
        b" before the first day of the table, ",
        first,
    )
}

// Writes that a date lies so many days after the last day of the table, and which day that is.
#[tactic(auto, unfolding(crate::specs::Outside::after_text))]
pub fn put_after(out: &mut [u8], at: usize, date: Date, days: u32) -> usize
    ensures { Wrote out.old at (after_text date days) out.new result }
{
    let last = earlier_day(date, days);
    put_side(
        out,
        at,
        date,
        days,
        b" after the last day of the table, ",
        last,
    )
}
