// Gregorian dates from 1900 to 2149, and instants, which are Julian days of universal time.
ghost use Rattle.std.specs.Prelude.{◌≡◌};
ghost use Rattle.gregorian.specs.Answers.{new_date, number_answer, weekday_answer, next_answer, date_answer};
ghost use Rattle.gregorian.specs.Instants.{julian_says, julian_answer, npt_answer};
ghost use Rattle.conversion.specs.Flat.{date};
ghost use Rattle.panel.specs.Boundary.{gives, numbers};

use crate::give;
use gregorian::{Date, UtDay};
use paper::Answer;

// A date's three numbers where they are asked for.
pub fn give_date(answer: Answer<Date>, year: &mut u16, month: &mut u16, day: &mut u16) -> u16
    ensures { (result, (year.new, month.new, day.new))
        ≡ gives answer numbers (year.old, month.old, day.old) }
{
    match answer {
        Ok(date) => {
            *year = date.year;
            *month = date.month;
            *day = date.day;
            0
        }
        Err(k) => k.number(),
    }
}

// An instant where it is asked for.
fn give_julian(answer: Answer<UtDay>, ut: &mut f64) -> u16
    ensures { (result, ut.new) ≡ gives (julian_says answer) (λ x. x) ut.old }
{
    give(answer.map(|at| at.0), ut)
}

// Whether three numbers are a date, and its numbers: 3.
#[unsafe(no_mangle)]
pub extern "C" fn panel_date_new(
    year: u16,
    month: u16,
    day: u16,
    date_year: &mut u16,
    date_month: &mut u16,
    date_day: &mut u16,
) -> u16
    ensures { (result, (date_year.new, date_month.new, date_day.new))
        ≡ gives (new_date year month day) numbers (date_year.old, date_month.old, date_day.old) }
{
    give_date(Date::new(year, month, day), date_year, date_month, date_day)
}

// The Julian day number of a date's noon: 3.
#[unsafe(no_mangle)]
pub extern "C" fn panel_date_day_number(year: u16, month: u16, day: u16, number: &mut u32) -> u16
    ensures { (result, number.new) ≡ gives (number_answer (date year month day)) (λ x. x) number.old }
{
    give((Date { year, month, day }).day_number(), number)
}

// The day of the week of a date, 0 for Sunday: 3.
#[unsafe(no_mangle)]
pub extern "C" fn panel_date_weekday(year: u16, month: u16, day: u16, weekday: &mut u32) -> u16
    ensures { (result, weekday.new) ≡ gives (weekday_answer (date year month day)) (λ x. x) weekday.old }
{
    give((Date { year, month, day }).weekday(), weekday)
}

// The day after a date: 3, also after 31 December 2149.
#[unsafe(no_mangle)]
pub extern "C" fn panel_date_next(
    year: u16,
    month: u16,
    day: u16,
    next_year: &mut u16,
    next_month: &mut u16,
    next_day: &mut u16,
) -> u16
    ensures { (result, (next_year.new, next_month.new, next_day.new))
        ≡ gives (next_answer (date year month day)) numbers (next_year.old, next_month.old, next_day.old) }
{
    give_date(
        (Date { year, month, day }).next(),
        next_year,
        next_month,
        next_day,
    )
}

// The date of a day number: 3.
#[unsafe(no_mangle)]
pub extern "C" fn panel_date_from_day_number(
    number: u32,
    year: &mut u16,
    month: &mut u16,
    day: &mut u16,
) -> u16
    ensures { (result, (year.new, month.new, day.new))
        ≡ gives (date_answer number) numbers (year.old, month.old, day.old) }
{
    give_date(Date::from_day_number(number), year, month, day)
}

// The instant of a date at a fraction of the day: 3, 8.
#[unsafe(no_mangle)]
pub extern "C" fn panel_julian_day(
    year: u16,
    month: u16,
    day: u16,
    fraction: f64,
    ut: &mut f64,
) -> u16
    ensures { (result, ut.new) ≡ gives (julian_answer (date year month day) fraction) (λ x. x) ut.old }
{
    give_julian(
        gregorian::julian_day(Date { year, month, day }, fraction),
        ut,
    )
}

// The date in Nepal at an instant: 8, 3.
#[unsafe(no_mangle)]
pub extern "C" fn panel_npt_date(ut: f64, year: &mut u16, month: &mut u16, day: &mut u16) -> u16
    ensures { (result, (year.new, month.new, day.new))
        ≡ gives (npt_answer ut) numbers (year.old, month.old, day.old) }
{
    give_date(gregorian::npt_date(UtDay(ut)), year, month, day)
}
