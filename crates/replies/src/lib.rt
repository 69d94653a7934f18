// What a question is answered, and its words.
#![tactic(auto)]

ghost use Rattle.std.specs.Prelude.{◌≡◌, List, ℕ, [], ◌∷◌, cond, MatchResult, MatchOption};
ghost use Rattle.std.specs.Option.{ForSome};
ghost use Rattle.std.specs.Result.{ForOk};
ghost use Rattle.text.specs.Digits.{digits};
ghost use Rattle.output.specs.Floats.{float_text};
ghost use Rattle.output.specs.Gathered.{Gathers};
ghost use Rattle.replies.specs.Replies.{date_in, date_words, told_words, reply_words, barred, bytes_words};
ghost use Rattle.replies.specs.declared.Reply.TheVariants as R;

use asked::Words;
use gregorian::Date;
use output::Out;
use panchanga::lunar::Reading;
use paper::{Answer, Refusal, Told};

// A question mark for a line out of form, the number of a refusal and what is told with it, or 0 and values.
#[derive(Clone, Copy)]
pub enum Reply {
    Unformed,
    Refused(Refusal),
    Good,
    Nothing,
    Number(u64),
    Pair(u64, u64),
    Date(u16, u16, u16),
    Float(f64),
    Span(f64, f64),
    Day(u32, u32, Date),
    LastDay(u32, u32),
    Reading(Reading),
}

// A date as three words.
#[tactic(auto, using(output::proofs::Gathering::then))]
pub fn put_date_words(o: Out, out: &mut [u8], year: u16, month: u16, day: u16) -> Out
    ensures { Gathers out.old o (date_words year month day) out.new result }
{
    o.number(out, year as u64)
        .number(out, month as u64)
        .number(out, day as u64)
}

// A 0 and two numbers.
#[tactic(auto, unfolding(crate::specs::Replies::reply_words), using(output::proofs::Gathering::then))]
fn put_pair(o: Out, out: &mut [u8], n: u64, k: u64) -> Out
    ensures { Gathers out.old o (reply_words (R.Pair «n» «k»)) out.new result }
{
    o.number(out, 0).number(out, n).number(out, k)
}

// A 0 and the four numbers of a reading.
#[tactic(auto, unfolding(crate::specs::Replies::reply_words), using(output::proofs::Gathering::then))]
fn put_reading(o: Out, out: &mut [u8], x: Reading) -> Out
    ensures { Gathers out.old o (reply_words (R.Reading x)) out.new result }
{
    let named = o.number(out, 0).number(out, x.tithi as u64);
    put_date_words(named, out, x.end, x.sunrise, x.sunset)
}

// What a refusal tells beside its number.
#[tactic(auto, using(output::proofs::Gathering::gathers_none))]
fn put_told(o: Out, out: &mut [u8], t: Option<Told>) -> Out
    ensures { Gathers out.old o (told_words t) out.new result }
{
    match t {
        Some(Told::Before(days)) => o.negative(out, days as u64),
        Some(Told::After(days)) => o.number(out, days as u64),
        Some(Told::Line(line)) => o.number(out, line as u64),
        None => o,
    }
}

// A refusal's number, and behind it what is told with it.
fn put_refusal(o: Out, out: &mut [u8], k: Refusal) -> Out
    ensures { Gathers out.old o (reply_words (R.Refused k)) out.new result }
{
    put_told(o.number(out, k.number() as u64), out, k.told())
}

impl Reply {
    // The reply of an answer: what is made of its value, or the refusal.
    pub fn said<T, F: FnOnce(T) -> Reply>(a: Answer<T>, shown: F) -> Reply
        requires { ForOk a (F.pre shown) }
        ensures { MatchResult a (λ x. F.post shown x result) (λ k. result ≡ R.Refused k) }
    {
        match a {
            Ok(x) => shown(x),
            Err(k) => Reply::Refused(k),
        }
    }

    // The same of a value that may be none.
    pub fn perhaps<T, F: FnOnce(T) -> Reply>(x: Option<T>, shown: F) -> Reply
        requires { ForSome x (F.pre shown) }
        ensures { MatchOption x (result ≡ R.Nothing) (λ v. F.post shown v result) }
    {
        match x {
            Some(v) => shown(v),
            None => Reply::Nothing,
        }
    }

    // The reply of a test: nothing more where it passes, or the refusal.
    pub fn passed(good: bool, k: Refusal) -> Reply
        ensures { result ≡ cond good R.Good (R.Refused k) }
    {
        if good {
            return Reply::Good;
        }
        Reply::Refused(k)
    }

    // Puts the reply's words behind what is gathered.
    #[tactic(auto, unfolding(crate::specs::Replies::reply_words), using(output::proofs::Gathering::then))]
    pub fn put(self, o: Out, out: &mut [u8]) -> Out
        ensures { Gathers out.old o (reply_words self) out.new result }
    {
        match self {
            Reply::Unformed => o.word(out, b"?"),
            Reply::Refused(k) => put_refusal(o, out, k),
            Reply::Good => o.number(out, 0),
            Reply::Nothing => o.number(out, 0).word(out, b"none"),
            Reply::Number(n) => o.number(out, 0).number(out, n),
            Reply::Pair(n, k) => put_pair(o, out, n, k),
            Reply::Date(y, m, d) => put_date_words(o.number(out, 0), out, y, m, d),
            Reply::Float(x) => o.number(out, 0).float(out, x),
            Reply::Span(x, y) => o.number(out, 0).float(out, x).float(out, y),
            Reply::Day(n, k, x) => put_date_words(
                put_pair(o, out, n as u64, k as u64),
                out,
                x.year,
                x.month,
                x.day,
            ),
            Reply::LastDay(n, k) => put_pair(o, out, n as u64, k as u64).word(out, b"none"),
            Reply::Reading(x) => put_reading(o, out, x),
        }
    }
}

// A date from a line's first three words.
pub fn date_of(w: Words) -> Date
    ensures { result ≡ date_in w }
{
    Date {
        year: w.small(1),
        month: w.small(2),
        day: w.small(3),
    }
}

// What a lent buffer holds: each element is one word.
pub trait Element: Copy {
    ghost word: { Self → List ℕ };

    // Puts the element's word behind what is gathered.
    fn put(self, o: Out, out: &mut [u8]) -> Out
        ensures { Gathers out.old o (word self ∷ []) out.new result };
}

impl Element for u16 {
    ghost word = { digits };

    fn put(self, o: Out, out: &mut [u8]) -> Out {
        o.number(out, self as u64)
    }
}

impl Element for f64 {
    ghost word = { float_text };

    fn put(self, o: Out, out: &mut [u8]) -> Out {
        o.float(out, self)
    }
}

// Every element of a lent buffer, behind a bar.
pub fn put_list<T: Element>(o: Out, out: &mut [u8], list: &[T]) -> Out
    ensures { Gathers out.old o (barred T.word list.now) out.new result }
{
    let mut p = o.word(out, b"|");
    for &x in list {
        p = x.put(p, out);
    }
    p
}

// The bytes of a lent buffer as one word, behind a bar.
pub fn put_bytes(o: Out, out: &mut [u8], list: &[u8]) -> Out
    ensures { Gathers out.old o (bytes_words list.now) out.new result }
{
    let p = o.word(out, b"|");
    if list.is_empty() {
        return p;
    }
    p.octets(out, list)
}
