// Time, the longitudes of sun and moon, the elongation, tithis and where they begin.
ghost use Rattle.std.specs.Prelude.{◌≡◌, length};
ghost use Rattle.sky.specs.Time.{delta_t};
ghost use Rattle.sky.specs.Tithi.{tithi_of};
ghost use Rattle.sky.specs.Answers.{tt_says, starts_says, instant_says};
ghost use Rattle.sky.specs.Answers.{tt_answer, sun_answer, moon_answer, elongation_answer, tithi_answer, starts_answer, starts_buffer, end_answer};
ghost use Rattle.panel.specs.Boundary.{gives, gives_some};

use crate::give;
use gregorian::UtDay;
use paper::Answer;
use sky::{Starts, TtDay};

// A day of terrestrial time where it is asked for.
fn give_tt(answer: Answer<TtDay>, tt: &mut f64) -> u16
    ensures { (result, tt.new) ≡ gives (tt_says answer) (λ x. x) tt.old }
{
    give(answer.map(|day| day.0), tt)
}

// The numbers of starts and of steps where they are asked for.
fn give_starts(answer: Answer<Starts>, count: &mut usize, steps: &mut usize) -> u16
    ensures { (result, (count.new, steps.new)) ≡ gives (starts_says answer) (λ x. x) (count.old, steps.old) }
{
    match answer {
        Ok(Starts { count: n, steps: k }) => {
            *count = n;
            *steps = k;
            0
        }
        Err(k) => k.number(),
    }
}

// An instant where it is asked for, if there is one, and whether there is.
pub fn give_instant(answer: Answer<Option<UtDay>>, found: &mut u16, ut: &mut f64) -> u16
    ensures { (result, (found.new, ut.new)) ≡ gives_some (instant_says answer) (λ x. x) (found.old, ut.old) }
{
    match answer {
        Ok(Some(at)) => {
            *found = 1;
            *ut = at.0;
            0
        }
        Ok(None) => {
            *found = 0;
            0
        }
        Err(k) => k.number(),
    }
}

// The difference between terrestrial and universal time in a year, in seconds. It refuses nothing.
#[unsafe(no_mangle)]
pub extern "C" fn panel_delta_t(year: f64, seconds: &mut f64) -> u16
    ensures code { result ≡ 0 }
    ensures seconds { seconds.new ≡ delta_t year }
{
    *seconds = sky::delta_t(year);
    0
}

// The day of terrestrial time at an instant: 8.
#[unsafe(no_mangle)]
pub extern "C" fn panel_tt_from_ut(ut: f64, tt: &mut f64) -> u16
    ensures { (result, tt.new) ≡ gives (tt_answer ut) (λ x. x) tt.old }
{
    give_tt(sky::tt_from_ut(UtDay(ut)), tt)
}

// The longitude of the sun on a day of terrestrial time: 8.
#[unsafe(no_mangle)]
pub extern "C" fn panel_sun_longitude(tt: f64, degrees: &mut f64) -> u16
    ensures { (result, degrees.new) ≡ gives (sun_answer tt) (λ x. x) degrees.old }
{
    give(sky::sun_longitude(TtDay(tt)), degrees)
}

// The longitude of the moon on a day of terrestrial time: 8.
#[unsafe(no_mangle)]
pub extern "C" fn panel_moon_longitude(tt: f64, degrees: &mut f64) -> u16
    ensures { (result, degrees.new) ≡ gives (moon_answer tt) (λ x. x) degrees.old }
{
    give(sky::moon_longitude(TtDay(tt)), degrees)
}

// The moon's elongation from the sun at an instant: 8.
#[unsafe(no_mangle)]
pub extern "C" fn panel_elongation(ut: f64, degrees: &mut f64) -> u16
    ensures { (result, degrees.new) ≡ gives (elongation_answer ut) (λ x. x) degrees.old }
{
    give(sky::elongation(UtDay(ut)), degrees)
}

// The tithi of an elongation. It refuses nothing.
#[unsafe(no_mangle)]
pub extern "C" fn panel_tithi_of(degrees: f64, tithi: &mut u16) -> u16
    ensures code { result ≡ 0 }
    ensures tithi { tithi.new ≡ tithi_of degrees }
{
    *tithi = sky::tithi_of(degrees);
    0
}

// The tithi running at an instant: 8.
#[unsafe(no_mangle)]
pub extern "C" fn panel_tithi_at(ut: f64, tithi: &mut u16) -> u16
    ensures { (result, tithi.new) ≡ gives (tithi_answer ut) (λ x. x) tithi.old }
{
    give(sky::tithi_at(UtDay(ut)), tithi)
}

// Every instant from one to another at which a tithi begins, at the front of a lent buffer; how many, and how many steps were walked: 8, 11, 9.
#[unsafe(no_mangle)]
pub extern "C" fn panel_tithi_starts_between(
    tithi: u16,
    from: f64,
    to: f64,
    starts: &mut [f64],
    count: &mut usize,
    steps: &mut usize,
) -> u16
    ensures starts { starts.new ≡ starts_buffer tithi from to starts.old }
    ensures found { (result, (count.new, steps.new))
        ≡ gives (starts_answer tithi from to (length starts.old)) (λ x. x) (count.old, steps.old) }
{
    give_starts(
        sky::tithi_starts_between(tithi, UtDay(from), UtDay(to), starts),
        count,
        steps,
    )
}

// Where the tithi that runs at an instant ends, if it does in two and a half days: 8.
#[unsafe(no_mangle)]
pub extern "C" fn panel_tithi_end(ut: f64, found: &mut u16, end: &mut f64) -> u16
    ensures { (result, (found.new, end.new)) ≡ gives_some (end_answer ut) (λ x. x) (found.old, end.old) }
{
    give_instant(sky::tithi_end(UtDay(ut)), found, end)
}
