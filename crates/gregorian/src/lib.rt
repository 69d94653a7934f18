// Gregorian dates from 1900-01-01 to 2149-12-31.
#![tactic(auto)]

ghost use Rattle.std.specs.Prelude.{◌≡◌, ◌+◌, ◌<◌, ◌≤◌, T};
ghost use Rattle.paper.specs.Floats.{floor_of};
ghost use Rattle.gregorian.specs.Calendar.{leap, month_length, month_start, year_start, year_length, all_days, is_date, day_number, weekday_of, date_after};
ghost use Rattle.gregorian.specs.Instants.{instant, zero_of, julian_says, julian_answer, npt_answer, local_day};
ghost use Rattle.gregorian.specs.Answers.{new_date, number_answer, weekday_answer, next_answer, date_answer};

use paper::{Answer, Refusal};

// A date as three numbers. A record that is no date is refused by every call, with 3.
#[derive(Clone, Copy, PartialEq, Eq)]
pub struct Date {
    pub year: u16,
    pub month: u16,
    pub day: u16,
}

// A Julian day of universal time.
#[derive(Clone, Copy)]
pub struct UtDay(pub f64);

// Nepal time, 5 hours and 45 minutes east, as a fraction of a day.
pub const NPT_OFFSET: f64 = 5.75 / 24.0;

// The numbers of 1 January 1900 and 31 December 2149.
const FIRST: u32 = 2415021;

const LAST: u32 = 2506331;

// The lengths of the months of a common year.
const LENGTHS: [u16; 13] = [0, 31, 28, 31, 30, 31, 30, 31, 31, 30, 31, 30, 31];

// The days of a common year before each month, and of the whole year.
const STARTS: [u16; 14] = [
    0, 0, 31, 59, 90, 120, 151, 181, 212, 243, 273, 304, 334, 365,
];

// Whether a year is a leap year.
fn is_leap(y: u16) -> bool
    ensures { result ≡ leap y }
{
    y % 4 == 0 && (y % 100 != 0 || y % 400 == 0)
}

// The length of a month of a leap year or another; 0 where there is no such month.
fn month_length(l: bool, m: u16) -> u16
    ensures { result ≡ month_length l m }
{
    if m > 12 {
        return 0;
    }
    if l && m == 2 {
        return 29;
    }
    LENGTHS[m as usize]
}

// Whether three numbers are a date from 1900 to 2149.
fn is_date(y: u16, m: u16, d: u16) -> bool
    ensures { result ≡ is_date y m d }
{
    (1900..=2149).contains(&y) && (1..=month_length(is_leap(y), m)).contains(&d)
}

// The days before a month of a year, for months up to 13.
fn month_start(l: bool, m: u16) -> u32
    requires { m < 14 }
    ensures { result ≡ month_start l m }
{
    let common = STARTS[m as usize] as u32;
    if l && 2 < m { common + 1 } else { common }
}

// The days before the year 1900 + n.
fn year_start(n: u32) -> u32
    requires { n < 251 }
    ensures { result ≡ year_start n }
{
    let last = n + 1899;
    365 * n + last / 4 + last / 400 - last / 100 - 460
}

// The number of a date, which is known to be one: nothing else knows how it is worked out.
fn number(y: u16, m: u16, d: u16) -> u32
    requires { T (is_date y m d) }
    ensures { result ≡ day_number (record { year = y; month = m; day = d }) }
{
    let years = year_start((y - 1900) as u32);
    let months = month_start(is_leap(y), m);
    FIRST + years + months + ((d - 1) as u32)
}

// The day of the week of a day number, 0 for Sunday.
pub fn weekday_of(n: u32) -> u32
    ensures { result ≡ weekday_of n }
{
    (n % 7 + 1) % 7
}

// The year, counted from 1900, that holds the day n, counted from 1 January 1900.
fn year_of(n: u32) -> u32
    requires { n < all_days }
    ensures { (result < 250) × (year_start result ≤ n) × (n < year_start (result + 1)) }
{
    let k = n / 366;
    if year_start(k + 1) <= n {
        return k + 1;
    }
    k
}

// The month that holds the day n of a year, counted from 0.
fn month_of(l: bool, n: u32) -> u16
    requires { n < year_length l }
    ensures { (1 ≤ result) × (result ≤ 12) × (month_start l result ≤ n) × (n < month_start l (result + 1)) }
{
    let k = (n / 32) as u16;
    if month_start(l, k + 2) <= n {
        return k + 2;
    }
    k + 1
}

// The date n days after 1 January 1900.
fn date_after(n: u32) -> Date
    requires { n < all_days }
    ensures { result ≡ date_after n }
{
    let k = year_of(n);
    let rest = n - year_start(k);
    let y = (1900 + k) as u16;
    let l = is_leap(y);
    let m = month_of(l, rest);
    let d = (rest - month_start(l, m) + 1) as u16;
    Date {
        year: y,
        month: m,
        day: d,
    }
}

impl Date {
    // The date with these numbers, if there is one.
    pub fn new(year: u16, month: u16, day: u16) -> Answer<Date>
        ensures { result ≡ new_date year month day }
    {
        if is_date(year, month, day) {
            Ok(Date { year, month, day })
        } else {
            Err(Refusal::NoSuchDate)
        }
    }

    // The Julian day number of the day's noon.
    pub fn day_number(self) -> Answer<u32>
        ensures { result ≡ number_answer self }
    {
        if is_date(self.year, self.month, self.day) {
            Ok(number(self.year, self.month, self.day))
        } else {
            Err(Refusal::NoSuchDate)
        }
    }

    // The day of the week, 0 for Sunday.
    pub fn weekday(self) -> Answer<u32>
        ensures { result ≡ weekday_answer self }
    {
        let n = self.day_number()?;
        Ok(weekday_of(n))
    }

    // The day after; none after 31 December 2149.
    pub fn next(self) -> Answer<Date>
        ensures { result ≡ next_answer self }
    {
        let Date { year, month, day } = self;
        if !is_date(year, month, day) {
            return Err(Refusal::NoSuchDate);
        }
        if day < month_length(is_leap(year), month) {
            return Ok(Date {
                year,
                month,
                day: day + 1,
            });
        }
        if month < 12 {
            return Ok(Date {
                year,
                month: month + 1,
                day: 1,
            });
        }
        Date::new(year + 1, 1, 1)
    }

    // The date of a day number.
    pub fn from_day_number(n: u32) -> Answer<Date>
        ensures { result ≡ date_answer n }
    {
        if !(FIRST..=LAST).contains(&n) {
            return Err(Refusal::NoSuchDate);
        }
        Ok(date_after(n - FIRST))
    }
}

// Whether a number is an instant that the engine serves.
pub fn is_instant(x: f64) -> bool
    ensures { result ≡ instant x }
{
    2400000.0 <= x && x <= 2510000.0
}

// 0h of the day whose number is n, as a Julian day: half a day before its noon.
pub fn zero_hour(n: u32) -> f64
    ensures { result ≡ zero_of n }
{
    n as f64 - 0.5
}

// The Julian day of a date at a fraction of the day.
pub fn julian_day(date: Date, fraction: f64) -> Answer<UtDay>
    ensures { julian_says result ≡ julian_answer date fraction }
{
    let n = date.day_number()?;
    let t = zero_hour(n) + fraction;
    if !is_instant(t) {
        return Err(Refusal::OutOfRange);
    }
    Ok(UtDay(t))
}

// The local day in Nepal of an instant: its whole part is the number of the date there, and its fraction the part of that date gone by.
pub fn local_day(x: f64) -> f64
    ensures { result ≡ local_day x }
{
    x + NPT_OFFSET + 0.5
}

// The whole local day of an instant.
fn whole_day(x: f64) -> u32
    requires { T (instant x) }
    ensures { result ≡ floor_of (local_day x) }
{
    std::num::truncating_f64_to_u64(local_day(x)) as u32
}

// The date in Nepal at an instant.
pub fn npt_date(instant: UtDay) -> Answer<Date>
    ensures { result ≡ npt_answer instant.0 }
{
    if !is_instant(instant.0) {
        return Err(Refusal::OutOfRange);
    }
    Date::from_day_number(whole_day(instant.0))
}
