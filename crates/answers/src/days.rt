// Questions about Gregorian dates and instants: `day`, `date`, `jd` and `npt`.
ghost use Rattle.std.specs.Prelude.{◌≡◌, Ok};
ghost use Rattle.gregorian.specs.Answers.{number_answer, weekday_answer, next_answer};
ghost use Rattle.replies.specs.Replies.{said, dated};
ghost use Rattle.answers.specs.Days.{day_of, days_reply};

use asked::{Words, tags};
use gregorian::{Date, UtDay};
use paper::Answer;
use replies::Reply;

// The reply of a day number and a weekday, with the next date or none.
fn followed(n: u32, k: u32, next: Answer<Date>) -> Reply
    ensures { result ≡ day_of (Ok «n») (Ok k) next }
{
    match next {
        Ok(d) => Reply::Day(n, k, d),
        Err(_) => Reply::LastDay(n, k),
    }
}

// The same where the weekday is an answer.
fn with_weekday(n: u32, weekday: Answer<u32>, next: Answer<Date>) -> Reply
    ensures { result ≡ day_of (Ok «n») weekday next }
{
    match weekday {
        Ok(k) => followed(n, k, next),
        Err(e) => Reply::Refused(e),
    }
}

// The reply of a date's day number, weekday and next date.
fn day(d: Date) -> Reply
    ensures { result ≡ day_of (number_answer d) (weekday_answer d) (next_answer d) }
{
    match d.day_number() {
        Ok(n) => with_weekday(n, d.weekday(), d.next()),
        Err(e) => Reply::Refused(e),
    }
}

// The reply of a Gregorian date.
pub fn date(a: Answer<Date>) -> Reply
    ensures { result ≡ said dated a }
{
    Reply::said(a, |d| Reply::Date(d.year, d.month, d.day))
}

// The reply to a line in form, or a question mark.
pub fn reply(w: Words) -> Reply
    ensures { result ≡ days_reply w }
{
    let tag = w.tag;
    let form = w.form;
    match tag {
        tags::DAY => {
            if form == 111 {
                return day(replies::date_of(w));
            }
        }
        tags::DATE => {
            if (form == 1) | (form == 2) {
                return date(Date::from_day_number(w.large(1)));
            }
        }
        tags::JD => {
            if form == 1114 {
                let at = gregorian::julian_day(replies::date_of(w), w.float(4));
                return Reply::said(at, |t| Reply::Float(t.0));
            }
        }
        tags::NPT => {
            if form == 4 {
                return date(gregorian::npt_date(UtDay(w.float(1))));
            }
        }
        _ => {}
    }
    Reply::Unformed
}
