// Conversion between Bikram Sambat and Gregorian dates, over a lent year table.
#![tactic(auto)]

ghost use Rattle.std.specs.Prelude.{◌≡◌, true, ◌+◌, ◌-◌, ◌<◌};
ghost use Rattle.paper.specs.Sums.{sum};
ghost use Rattle.gregorian.specs.Calendar.{date_of};
ghost use Rattle.gregorian.specs.Answers.{numbered, number_answer};
ghost use Rattle.conversion.specs.Calendar.{year_ok, month_len, valid_bs, to_day, date_in_year, from_day, to_ad, from_ad};
ghost use Rattle.conversion.specs.Flat.{accepted, first_day, flat, lens, row_count};
ghost use Rattle.conversion.specs.Inner.{untested, Begins, InRow, OfRow, PlacedIn};

mod check;
mod columns;
pub mod known;

use gregorian::Date;
use paper::{Answer, Refusal};

// What a table says besides its rows: the first BS year, and the Gregorian date of its first day.
#[derive(Clone, Copy, PartialEq, Eq)]
pub struct Table {
    pub first_year: u16,
    pub year: u16,
    pub month: u16,
    pub day: u16,
}

// A BS date as three numbers; the calls say whether it is one of a table.
#[derive(Clone, Copy)]
pub struct BsDate {
    pub year: u16,
    pub month: u16,
    pub day: u16,
}

// The number of a table's first day, where it is a date.
pub fn first_day(table: Table) -> Answer<u32>
    ensures { result ≡ number_answer (first_day table) }
{
    let first = Date {
        year: table.year,
        month: table.month,
        day: table.day,
    };
    first.day_number()
}

// Whether a lent year table keeps the rules of docs/RULES.md, What is lent.
pub fn accepts(table: Table, rows: &[u16]) -> bool
    ensures { result ≡ accepted table rows.now }
{
    check::whole(table, rows).is_ok()
}

// How many years the rows of a table hold.
pub fn year_count(rows: &[u16]) -> usize
    ensures { result ≡ row_count rows.now }
{
    rows.len() / 13
}

// Column m of row i, 0 where there is none: columns 0 to 11 have the lengths of the months, column 12 their sum.
pub fn number_at(rows: &[u16], i: usize, m: usize) -> u16
    ensures { result ≡ lens rows.now i m }
{
    // Tested by itself, since 13 * i may not fit.
    if year_count(rows) < i {
        return 0;
    }
    let k = 13 * i;
    if m < rows.len() - k {
        return rows[k + m];
    }
    0
}

// Whether a year is one of a table.
pub fn is_year(table: Table, rows: &[u16], year: u16) -> bool
    ensures { result ≡ year_ok (flat table rows.now) year }
{
    if year < table.first_year {
        return false;
    }
    ((year - table.first_year) as usize) < year_count(rows)
}

// The row of a year; 0 where it is before the first.
fn row_of(table: Table, year: u16) -> usize
    ensures { result ≡ year - table.first_year }
{
    year.saturating_sub(table.first_year) as usize
}

// The length of a month of a table whose rows are not tested.
fn month_at(table: Table, rows: &[u16], year: u16, month: u16) -> Answer<u16>
    ensures { result ≡ month_len (untested table rows.now) year month }
{
    if !is_year(table, rows, year) {
        return Err(Refusal::NoYear);
    }
    if !(1..=12).contains(&month) {
        return Err(Refusal::NoMonth);
    }
    Ok(number_at(rows, row_of(table, year), (month - 1) as usize))
}

// The length of a month of an accepted table.
pub fn month_days(table: Table, rows: &[u16], year: u16, month: u16) -> Answer<u16>
    requires { accepted table rows.now ≡ true }
    ensures { result ≡ month_len (flat table rows.now) year month }
{
    month_at(table, rows, year, month)
}

// Whether a date is one of a table whose rows are not tested.
fn date_check(table: Table, rows: &[u16], date: BsDate) -> Answer<()>
    ensures { result ≡ valid_bs (untested table rows.now) date.year date.month date.day }
{
    match month_at(table, rows, date.year, date.month) {
        Ok(len) if (1..=len).contains(&date.day) => Ok(()),
        Ok(_) => Err(Refusal::NoDay),
        Err(k) => Err(k),
    }
}

// The number of a day of row i, whose first day has the number first.
fn day_in_row(rows: &[u16], i: usize, first: u32, month: u16, day: u16) -> u32
    requires { InRow rows.now i first month day }
    ensures { result ≡ first + sum (lens rows.now i) (month - 1) + (day - 1) }
{
    let months = columns::months_span(rows, 13 * i, (month - 1) as usize);
    first + months + (day - 1) as u32
}

// The number of a day of a table that begins with day start and whose rows are not tested.
fn number_of(table: Table, rows: &[u16], start: u32, date: BsDate) -> Answer<u32>
    requires { Begins table rows.now start }
    ensures { accepted table rows.now ≡ true
        → result ≡ to_day (flat table rows.now) date.year date.month date.day }
{
    date_check(table, rows, date)?;
    let i = (date.year - table.first_year) as usize;
    let first = start + columns::span(rows, 12, 13, i);
    Ok(day_in_row(rows, i, first, date.month, date.day))
}

// The number of a day of an accepted table.
pub fn day_of(table: Table, rows: &[u16], date: BsDate) -> Answer<u32>
    requires { accepted table rows.now ≡ true }
    ensures { result ≡ to_day (flat table rows.now) date.year date.month date.day }
{
    let start = first_day(table)?;
    number_of(table, rows, start, date)
}

// The date that lies rest days after the first day of row i.
fn date_in_row(table: Table, rows: &[u16], i: usize, rest: u32) -> BsDate
    requires { OfRow table rows.now i rest }
    ensures { rest < sum (lens rows.now i) 12 → result ≡ date_in_year (flat table rows.now) i rest }
{
    let p = columns::find(rows, 13 * i, 1, 12, rest);
    BsDate {
        year: table.first_year + i as u16,
        month: p.index as u16 + 1,
        day: p.rest as u16 + 1,
    }
}

// The date of day n of a table that begins with day start, once its row is known: the days from start to n end rest days after row i begins.
// Refusal 7.
fn place_in(table: Table, rows: &[u16], start: u32, n: u32, i: usize, rest: u32) -> Answer<BsDate>
    requires { PlacedIn table rows.now start n i rest }
    ensures { accepted table rows.now ≡ true → result ≡ from_day (flat table rows.now) n }
{
    if n < start {
        return Err(Refusal::Before(start - n));
    }
    if year_count(rows) <= i {
        return Err(Refusal::After(rest + 1));
    }
    Ok(date_in_row(table, rows, i, rest))
}

// The date of a day of an accepted table: refusal 7.
pub fn place(table: Table, rows: &[u16], n: u32) -> Answer<BsDate>
    requires { accepted table rows.now ≡ true }
    ensures { result ≡ from_day (flat table rows.now) n }
{
    let start = first_day(table)?;
    let p = columns::find(rows, 12, 13, year_count(rows), n.saturating_sub(start));
    place_in(table, rows, start, n, p.index, p.rest)
}

// The length of a month: refusals 1, 4, 5.
pub fn bs_month_len(table: Table, rows: &[u16], year: u16, month: u16) -> Answer<u16>
    ensures { result ≡ month_len (flat table rows.now) year month }
{
    check::whole(table, rows)?;
    month_days(table, rows, year, month)
}

// Whether there is such a BS date: refusals 1, 4, 5, 6.
pub fn validate_bs_date(table: Table, rows: &[u16], date: BsDate) -> Answer<()>
    ensures { result ≡ valid_bs (flat table rows.now) date.year date.month date.day }
{
    check::whole(table, rows)?;
    date_check(table, rows, date)
}

// The date of a number that is a date's.
fn date_of(n: u32) -> Date
    requires { numbered n ≡ true }
    ensures { result ≡ date_of n }
{
    Date::from_day_number(n).unwrap_or(Date {
        year: 0,
        month: 0,
        day: 0,
    })
}

// The Gregorian date of a BS date: refusals 1, 4, 5, 6.
pub fn bs_to_ad(table: Table, rows: &[u16], date: BsDate) -> Answer<Date>
    ensures { result ≡ to_ad (flat table rows.now) date.year date.month date.day }
{
    let start = check::frame(table, rows.len())?;
    let p = check::pass_table(table, rows, start, row_of(table, date.year), 4294967295)?;
    date_check(table, rows, date)?;
    let n = day_in_row(rows, p.row, start + p.before, date.month, date.day);
    Ok(date_of(n))
}

// The BS date of a Gregorian date: refusals 1, 3 and 7, which tells how far outside the table the date lies.
pub fn ad_to_bs(table: Table, rows: &[u16], year: u16, month: u16, day: u16) -> Answer<BsDate>
    ensures { result ≡ from_ad (flat table rows.now) year month day }
{
    // What every table that is not accepted is answered, whatever the date.
    let refused = Err(Refusal::BadTable);
    let Ok(start) = check::frame(table, rows.len()) else {
        return refused;
    };
    let number = Date { year, month, day }.day_number();
    let offset = number.unwrap_or(start).saturating_sub(start);
    let Ok(p) = check::pass_table(table, rows, start, year_count(rows), offset) else {
        return refused;
    };
    let n = number?;
    place_in(table, rows, start, n, p.row, offset - p.before)
}
