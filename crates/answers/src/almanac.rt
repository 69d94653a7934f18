// Questions about a date's sun, kalas and reading: `events`, `rise`, `set`, `kala`, `nishita` and `read`.
ghost use Rattle.std.specs.Prelude.{◌≡◌};
ghost use Rattle.panchanga.specs.Answers.{span_says, kala_answer};
ghost use Rattle.replies.specs.Replies.{among};
ghost use Rattle.answers.specs.Heavens.{instant_reply};
ghost use Rattle.answers.specs.Almanac.{span_reply, date_rows, kala_rows, almanac_reply};

use crate::heavens;
use asked::{Words, tags};
use gregorian::Date;
use panchanga::{Kala, Span};
use paper::Answer;
use replies::Reply;

// The reply of two instants, or of none.
fn span(a: Answer<Option<Span>>) -> Reply
    ensures { result ≡ span_reply (span_says a) }
{
    Reply::said(a, |x| Reply::perhaps(x, |s| Reply::Span(s.from.0, s.to.0)))
}

// The reply to a line with a date, by its tag.
fn of_date(tag: u64, d: Date) -> Reply
    ensures { result ≡ among tag (date_rows d) }
{
    match tag {
        tags::EVENTS => span(panchanga::sun_events(d)),
        tags::RISE => heavens::instant(panchanga::sunrise(d)),
        tags::SET => heavens::instant(panchanga::sunset(d)),
        tags::NISHITA => span(panchanga::nishita_window(d)),
        tags::READ => Reply::said(panchanga::reading(d), Reply::Reading),
        _ => Reply::Unformed,
    }
}

// The reply of a kala's instant.
fn at(d: Date, kala: Kala) -> Reply
    ensures { result ≡ instant_reply (kala_answer kala d) }
{
    heavens::instant(panchanga::kala_instant(d, kala))
}

// The reply of a kala's instant, by the kala's number.
fn kala(d: Date, k: u16) -> Reply
    ensures { result ≡ among k (kala_rows d) }
{
    match k {
        0 => at(d, Kala::Udaya),
        1 => at(d, Kala::Madhyanna),
        2 => at(d, Kala::Aparahna),
        3 => at(d, Kala::Pradosh),
        4 => at(d, Kala::Nishita),
        5 => at(d, Kala::Begins),
        _ => Reply::Unformed,
    }
}

// The reply to a line in form, or a question mark.
#[tactic(auto, unfolding(crate::specs::Almanac::almanac_reply))]
pub fn reply(w: Words) -> Reply
    ensures { result ≡ almanac_reply w }
{
    let form = w.form;
    if form == 111 {
        return of_date(w.tag, replies::date_of(w));
    }
    if (w.tag == tags::KALA) & (form == 1111) {
        return kala(replies::date_of(w), w.small(4));
    }
    Reply::Unformed
}
