// The sky: time, the longitudes of sun and moon, the elongation, tithis and where they begin.
// Here are the public calls, which refuse. The modules hold what they work out, on every f64.
#![tactic(auto)]

pub mod angles;
pub mod division;
pub mod moon;
pub mod search;
pub mod sun;
mod terms;
pub mod time;
pub mod tithi;

ghost use Rattle.std.specs.Prelude.{◌≡◌, length};
ghost use Rattle.sky.specs.Answers.{tt_says, starts_says, instant_says, query, starts_buffer};
ghost use Rattle.sky.specs.Answers.{tt_answer, sun_answer, moon_answer, elongation_answer, tithi_answer, starts_answer, end_answer};

use gregorian::UtDay;
use paper::{Answer, Refusal};
pub use time::delta_t;
pub use tithi::tithi_of;

// A Julian day of terrestrial time.
#[derive(Clone, Copy)]
pub struct TtDay(pub f64);

// The number of starts and the number of steps walked.
#[derive(Clone, Copy)]
pub struct Starts {
    pub count: usize,
    pub steps: usize,
}

// The day of terrestrial time at an instant.
pub fn tt_from_ut(ut: UtDay) -> Answer<TtDay>
    ensures { tt_says result ≡ tt_answer ut.0 }
{
    if gregorian::is_instant(ut.0) {
        Ok(time::tt_of(ut))
    } else {
        Err(Refusal::OutOfRange)
    }
}

// The longitude of the sun.
pub fn sun_longitude(tt: TtDay) -> Answer<f64>
    ensures { result ≡ sun_answer tt.0 }
{
    if time::is_tt_day(tt.0) {
        let place = sun::sun_at(time::julian_centuries(tt));
        Ok(place.longitude)
    } else {
        Err(Refusal::OutOfRange)
    }
}

// The longitude of the moon.
pub fn moon_longitude(tt: TtDay) -> Answer<f64>
    ensures { result ≡ moon_answer tt.0 }
{
    if time::is_tt_day(tt.0) {
        Ok(moon::moon_at(time::julian_centuries(tt)))
    } else {
        Err(Refusal::OutOfRange)
    }
}

// The moon's elongation from the sun at an instant.
pub fn elongation(ut: UtDay) -> Answer<f64>
    ensures { result ≡ elongation_answer ut.0 }
{
    if gregorian::is_instant(ut.0) {
        Ok(tithi::elongation_of(ut))
    } else {
        Err(Refusal::OutOfRange)
    }
}

// The tithi running at an instant.
pub fn tithi_at(ut: UtDay) -> Answer<u16>
    ensures { result ≡ tithi_answer ut.0 }
{
    if gregorian::is_instant(ut.0) {
        Ok(tithi::tithi_of(tithi::elongation_of(ut)))
    } else {
        Err(Refusal::OutOfRange)
    }
}

// Whether a search can be asked: a tithi from 1 to 30, and two instants.
#[tactic(auto, unfolding(crate::specs::Answers::query))]
fn is_query(tithi: u16, from: f64, to: f64) -> bool
    ensures { result ≡ query tithi from to }
{
    if tithi < 1 || 30 < tithi {
        return false;
    }
    gregorian::is_instant(from) && gregorian::is_instant(to)
}

// Every instant from one to another at which a tithi begins, written to the front of a lent buffer.
pub fn tithi_starts_between(tithi: u16, from: UtDay, to: UtDay, out: &mut [f64]) -> Answer<Starts>
    ensures answer { starts_says result ≡ starts_answer tithi from.0 to.0 (length out.old) }
    ensures buffer { out.new ≡ starts_buffer tithi from.0 to.0 out.old }
{
    if !is_query(tithi, from.0, to.0) {
        return Err(Refusal::OutOfRange);
    }
    let mut found = [0.0; 1024];
    let walked = search::walk(tithi, from, to, &mut found);
    if !walked.ended {
        return Err(Refusal::NotEnded);
    }
    let n = walked.count;
    if n > out.len() {
        return Err(Refusal::NoRoom);
    }
    out[..n].copy_from_slice(&found[..n]);
    Ok(Starts {
        count: n,
        steps: walked.steps,
    })
}

// The instant at which the tithi that runs at an instant gives way to the next, in two and a half days.
pub fn tithi_end(ut: UtDay) -> Answer<Option<UtDay>>
    ensures { instant_says result ≡ end_answer ut.0 }
{
    if gregorian::is_instant(ut.0) && gregorian::is_instant(ut.0 + 2.5) {
        let running = tithi::tithi_of(tithi::elongation_of(ut));
        return Ok(search::end_of(running, ut));
    }
    Err(Refusal::OutOfRange)
}
