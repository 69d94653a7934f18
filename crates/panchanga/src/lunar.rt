// The lunar-day reading of a date. Each function serves every date and every f64.
ghost use Rattle.std.specs.Prelude.{◌≡◌};
ghost use Rattle.gregorian.specs.Instants.{npt_answer};
ghost use Rattle.sky.specs.Answers.{first_says};
ghost use Rattle.panchanga.specs.Reading.{same_date, end_on, reading_at, morning, reading_of};

use super::clock::clock_of;
use super::noaa::events_on;
use super::{Place, Span};
use gregorian::{Date, NPT_OFFSET, UtDay, npt_date, zero_hour};
use sky::search::end_of;
use sky::tithi::{elongation_of, tithi_of};

// The tithi that names a day, 1 to 30, and the minutes of the day at which it ends, the sun rises and the sun sets; 1,440 for none.
#[derive(Clone, Copy)]
pub struct Reading {
    pub tithi: u16,
    pub end: u16,
    pub sunrise: u16,
    pub sunset: u16,
}

// The minute of what does not happen. It is a number, as the definitions of specs/Reading.antt and include/panel.h have it.
const NONE: u16 = 1440;

// Whether an instant falls on a date in Nepal.
fn falls_on(date: Date, at: UtDay) -> bool
    ensures { result ≡ same_date date (npt_answer at.0) }
{
    match npt_date(at) {
        Ok(d) => d == date,
        Err(_) => false,
    }
}

// The minute at which a tithi ends, if that falls on the date.
#[tactic(auto, unfolding(crate::specs::Reading::end_on))]
fn end_on(date: Date, end: Option<UtDay>) -> u16
    ensures { result ≡ end_on date (first_says end) }
{
    match end {
        Some(at) if falls_on(date, at) => clock_of(at.0),
        _ => NONE,
    }
}

// A quarter of the day in Nepal, on the day with a number.
fn morning(n: u32) -> f64
    ensures { result ≡ morning n }
{
    zero_hour(n) + (0.25 - NPT_OFFSET)
}

// The reading of a date by the instant that names the day.
fn reading_at(date: Date, at: UtDay, sunrise: u16, sunset: u16) -> Reading
    ensures { result ≡ reading_at date at.0 sunrise sunset }
{
    let tithi = tithi_of(elongation_of(at));
    Reading {
        tithi,
        end: end_on(date, end_of(tithi, at)),
        sunrise,
        sunset,
    }
}

// The reading at a place of a date with its number.
pub fn reading_of(place: Place, date: Date, n: u32) -> Reading
    ensures { result ≡ reading_of place date n }
{
    match events_on(place, n) {
        Some(Span { from, to }) => reading_at(date, from, clock_of(from.0), clock_of(to.0)),
        None => reading_at(date, UtDay(morning(n)), NONE, NONE),
    }
}
