// Questions about an instant, a day of terrestrial time, a year, an elongation or a fraction of a day.
ghost use Rattle.std.specs.Prelude.{◌≡◌};
ghost use Rattle.sky.specs.Answers.{instant_says};
ghost use Rattle.replies.specs.Replies.{among};
ghost use Rattle.answers.specs.Heavens.{instant_reply, float_rows, heavens_reply};

use asked::{Words, tags};
use gregorian::UtDay;
use paper::Answer;
use replies::Reply;
use sky::TtDay;

// The reply of an instant, or of none.
pub fn instant(a: Answer<Option<UtDay>>) -> Reply
    ensures { result ≡ instant_reply (instant_says a) }
{
    Reply::said(a, |x| Reply::perhaps(x, |t| Reply::Float(t.0)))
}

// The reply to a line with one float, by its tag.
fn of_float(tag: u64, x: f64) -> Reply
    ensures { result ≡ among tag (float_rows x) }
{
    match tag {
        tags::DELTAT => Reply::Float(sky::delta_t(x)),
        tags::TT => Reply::said(sky::tt_from_ut(UtDay(x)), |t| Reply::Float(t.0)),
        tags::SUN => Reply::said(sky::sun_longitude(TtDay(x)), Reply::Float),
        tags::MOON => Reply::said(sky::moon_longitude(TtDay(x)), Reply::Float),
        tags::ELONG => Reply::said(sky::elongation(UtDay(x)), Reply::Float),
        tags::TITHI => Reply::said(sky::tithi_at(UtDay(x)), |n| Reply::Number(n as u64)),
        tags::TITHIOF => Reply::Number(sky::tithi_of(x) as u64),
        tags::END => instant(sky::tithi_end(UtDay(x))),
        tags::CLOCK => Reply::said(panchanga::npt_clock(UtDay(x)), |n| Reply::Number(n as u64)),
        tags::MINUTES => Reply::Number(panchanga::minutes_of(x) as u64),
        _ => Reply::Unformed,
    }
}

// The reply to a line in form, or a question mark.
pub fn reply(w: Words) -> Reply
    ensures { result ≡ heavens_reply w }
{
    if w.form == 4 {
        return of_float(w.tag, w.float(1));
    }
    Reply::Unformed
}
