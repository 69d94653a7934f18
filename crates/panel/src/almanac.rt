// Sunrise and sunset over Kathmandu, kalas, the clock and a date's reading.
ghost use Rattle.std.specs.Prelude.{◌≡◌};
ghost use Rattle.panchanga.specs.Answers.{span_says};
ghost use Rattle.panchanga.specs.Answers.{events_answer, rise_answer, set_answer, nishita_answer, clock_answer, reading_answer};
ghost use Rattle.panchanga.specs.Clock.{minutes_of};
ghost use Rattle.conversion.specs.Flat.{date};
ghost use Rattle.panel.specs.Boundary.{gives, gives_some, readings, kala_by};

use crate::give;
use crate::heavens::give_instant;
use festivals::days::kala_named;
use gregorian::{Date, UtDay};
use panchanga::Span;
use panchanga::lunar::Reading;
use paper::{Answer, Refusal};

// Two instants where they are asked for, if there are some, and whether there are.
fn give_span(answer: Answer<Option<Span>>, found: &mut u16, from: &mut f64, to: &mut f64) -> u16
    ensures { (result, (found.new, (from.new, to.new)))
        ≡ gives_some (span_says answer) (λ x. x) (found.old, (from.old, to.old)) }
{
    match answer {
        Ok(Some(Span { from: a, to: b })) => {
            *found = 1;
            *from = a.0;
            *to = b.0;
            0
        }
        Ok(None) => {
            *found = 0;
            0
        }
        Err(k) => k.number(),
    }
}

// A reading's four numbers where they are asked for.
fn give_reading(
    answer: Answer<Reading>,
    tithi: &mut u16,
    end: &mut u16,
    sunrise: &mut u16,
    sunset: &mut u16,
) -> u16
    ensures { (result, (tithi.new, end.new, sunrise.new, sunset.new))
        ≡ gives answer readings (tithi.old, end.old, sunrise.old, sunset.old) }
{
    match answer {
        Ok(reading) => {
            *tithi = reading.tithi;
            *end = reading.end;
            *sunrise = reading.sunrise;
            *sunset = reading.sunset;
            0
        }
        Err(k) => k.number(),
    }
}

// Sunrise and sunset on a date, if there are some: 3.
#[unsafe(no_mangle)]
pub extern "C" fn panel_sun_events(
    year: u16,
    month: u16,
    day: u16,
    found: &mut u16,
    rise: &mut f64,
    set: &mut f64,
) -> u16
    ensures { (result, (found.new, (rise.new, set.new)))
        ≡ gives_some (events_answer (date year month day)) (λ x. x) (found.old, (rise.old, set.old)) }
{
    give_span(
        panchanga::sun_events(Date { year, month, day }),
        found,
        rise,
        set,
    )
}

// Sunrise on a date, if there is one: 3.
#[unsafe(no_mangle)]
pub extern "C" fn panel_sunrise(
    year: u16,
    month: u16,
    day: u16,
    found: &mut u16,
    ut: &mut f64,
) -> u16
    ensures { (result, (found.new, ut.new)) ≡ gives_some (rise_answer (date year month day)) (λ x. x) (found.old, ut.old) }
{
    give_instant(panchanga::sunrise(Date { year, month, day }), found, ut)
}

// Sunset on a date, if there is one: 3.
#[unsafe(no_mangle)]
pub extern "C" fn panel_sunset(
    year: u16,
    month: u16,
    day: u16,
    found: &mut u16,
    ut: &mut f64,
) -> u16
    ensures { (result, (found.new, ut.new)) ≡ gives_some (set_answer (date year month day)) (λ x. x) (found.old, ut.old) }
{
    give_instant(panchanga::sunset(Date { year, month, day }), found, ut)
}

// The nishita of the night that follows a date, if there is one: 3, also on 31 December 2149.
#[unsafe(no_mangle)]
pub extern "C" fn panel_nishita_window(
    year: u16,
    month: u16,
    day: u16,
    found: &mut u16,
    from: &mut f64,
    to: &mut f64,
) -> u16
    ensures { (result, (found.new, (from.new, to.new)))
        ≡ gives_some (nishita_answer (date year month day)) (λ x. x) (found.old, (from.old, to.old)) }
{
    give_span(
        panchanga::nishita_window(Date { year, month, day }),
        found,
        from,
        to,
    )
}

// The instant of a kala, 0 to 5 as in a rule, on a date, if there is one: 2, 3, of nishita also on 31 December 2149.
#[unsafe(no_mangle)]
pub extern "C" fn panel_kala_instant(
    year: u16,
    month: u16,
    day: u16,
    kala: u16,
    found: &mut u16,
    ut: &mut f64,
) -> u16
    ensures { (result, (found.new, ut.new))
        ≡ gives_some (kala_by kala (date year month day)) (λ x. x) (found.old, ut.old) }
{
    if 5 < kala {
        return Refusal::BadRules.number();
    }
    let named = kala_named(kala);
    give_instant(
        panchanga::kala_instant(Date { year, month, day }, named),
        found,
        ut,
    )
}

// The minute of the clock in Nepal at an instant: 8.
#[unsafe(no_mangle)]
pub extern "C" fn panel_npt_clock(ut: f64, minutes: &mut u16) -> u16
    ensures { (result, minutes.new) ≡ gives (clock_answer ut) (λ x. x) minutes.old }
{
    give(panchanga::npt_clock(UtDay(ut)), minutes)
}

// The minutes of a fraction of the day. It refuses nothing.
#[unsafe(no_mangle)]
pub extern "C" fn panel_minutes_of(fraction: f64, minutes: &mut u16) -> u16
    ensures code { result ≡ 0 }
    ensures minutes { minutes.new ≡ minutes_of fraction }
{
    *minutes = panchanga::minutes_of(fraction);
    0
}

// What a calendar prints under a date: the tithi that names it, and the minutes at which that ends, the sun rises and sets, 1,440 for none: 3.
#[unsafe(no_mangle)]
pub extern "C" fn panel_reading(
    year: u16,
    month: u16,
    day: u16,
    tithi: &mut u16,
    end: &mut u16,
    sunrise: &mut u16,
    sunset: &mut u16,
) -> u16
    ensures { (result, (tithi.new, end.new, sunrise.new, sunset.new))
        ≡ gives (reading_answer (date year month day)) readings (tithi.old, end.old, sunrise.old, sunset.old) }
{
    give_reading(
        panchanga::reading(Date { year, month, day }),
        tithi,
        end,
        sunrise,
        sunset,
    )
}
