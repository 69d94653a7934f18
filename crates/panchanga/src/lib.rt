// Sun events over Kathmandu, kalas, the clock and a date's reading.
// Here are the public calls, which refuse. The modules hold what they work out.
#![tactic(auto)]

pub mod clock;
pub mod kalas;
pub mod lunar;
pub mod noaa;

ghost use Rattle.std.specs.Prelude.{◌≡◌};
ghost use Rattle.sky.specs.Answers.{instant_says};
ghost use Rattle.panchanga.specs.Answers.{span_says};
ghost use Rattle.panchanga.specs.Answers.{events_answer, rise_answer, set_answer, nishita_answer, kala_answer, clock_answer, reading_answer};

pub use clock::minutes_of;
use gregorian::{Date, UtDay};
use lunar::Reading;
use paper::{Answer, Refusal};

// A place on the Earth, in degrees: north and east are above 0.
#[derive(Clone, Copy)]
pub struct Place {
    pub latitude: f64,
    pub longitude: f64,
}

// The place of the festivals and of every call that names none.
pub const KATHMANDU: Place = Place {
    latitude: 27.7172,
    longitude: 85.3240,
};

// When in a day a festival rule is evaluated; the numbers 0 to 5 of a rule's kala, in their order.
#[derive(Clone, Copy)]
pub enum Kala {
    Udaya,
    Madhyanna,
    Aparahna,
    Pradosh,
    Nishita,
    Begins,
}

// Two instants, one after the other: sunrise and sunset, or the ends of a nishita.
#[derive(Clone, Copy)]
pub struct Span {
    pub from: UtDay,
    pub to: UtDay,
}

// Sunrise and sunset on a date.
pub fn sun_events(date: Date) -> Answer<Option<Span>>
    ensures { span_says result ≡ events_answer date }
{
    let n = date.day_number()?;
    Ok(noaa::events_on(KATHMANDU, n))
}

// Sunrise on a date.
pub fn sunrise(date: Date) -> Answer<Option<UtDay>>
    ensures { instant_says result ≡ rise_answer date }
{
    let events = sun_events(date)?;
    Ok(events.map(|day| day.from))
}

// Sunset on a date.
pub fn sunset(date: Date) -> Answer<Option<UtDay>>
    ensures { instant_says result ≡ set_answer date }
{
    let events = sun_events(date)?;
    Ok(events.map(|day| day.to))
}

// The nishita of the night that follows a date; none follows the last.
pub fn nishita_window(date: Date) -> Answer<Option<Span>>
    ensures { span_says result ≡ nishita_answer date }
{
    date.next()?;
    let n = date.day_number()?;
    Ok(kalas::nishita_between(
        noaa::events_on(KATHMANDU, n),
        noaa::events_on(KATHMANDU, n + 1),
    ))
}

// The instant of a kala on a date; of nishita the middle.
pub fn kala_instant(date: Date, kala: Kala) -> Answer<Option<UtDay>>
    ensures { instant_says result ≡ kala_answer kala date }
{
    if kalas::is_nishita(kala) {
        let window = nishita_window(date)?;
        return Ok(window.map(|night| kalas::middle(night.from, night.to)));
    }
    let events = sun_events(date)?;
    Ok(events.map(|day| kalas::kala_at(kala, day.from, day.to)))
}

// The clock's minute in Nepal at an instant.
pub fn npt_clock(instant: UtDay) -> Answer<u16>
    ensures { result ≡ clock_answer instant.0 }
{
    if gregorian::is_instant(instant.0) {
        Ok(clock::clock_of(instant.0))
    } else {
        Err(Refusal::OutOfRange)
    }
}

// What a calendar prints under a date: the tithi at sunrise, its end, sunrise and sunset.
pub fn reading(date: Date) -> Answer<Reading>
    ensures { result ≡ reading_answer date }
{
    let n = date.day_number()?;
    Ok(lunar::reading_of(KATHMANDU, date, n))
}
