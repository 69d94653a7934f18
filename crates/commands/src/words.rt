// What is asked: the words of the command line, read.
ghost use Rattle.std.specs.Prelude.{◌≡◌};
ghost use Rattle.commands.specs.Words.{date_in, number_in, pair_in, or_first, asked_date, asked_month, asked_day, asked_by, year_by, date_asked};

use gregorian::Date;

// A BS month, a BS date or a Gregorian date.
#[derive(Clone, Copy)]
pub enum Asked {
    Month(u16, u16),
    Day(u16, u16, u16),
    Date(Date),
}

// A day before every table's first day.
const FIRST: Date = Date {
    year: 1900,
    month: 1,
    day: 1,
};

// A whole word as YYYY-MM-DD.
#[tactic(auto, unfolding(crate::specs::Words::date_in))]
fn date_of(s: &[u8]) -> Option<Date>
    ensures { result ≡ date_in s.now }
{
    let (year, month, day) = text::dashed(s, text::start(), 4, 2)?;
    Some(Date { year, month, day })
}

// Today by a word, or a day that no table has where the word is no date.
pub fn today(s: &[u8]) -> Date
    ensures { result ≡ or_first (date_in s.now) }
{
    date_of(s).unwrap_or(FIRST)
}

// One word: a Gregorian date.
fn one_word(s: &[u8]) -> Option<Asked>
    ensures { result ≡ asked_date (date_in s.now) }
{
    let date = date_of(s)?;
    Some(Asked::Date(date))
}

// Two words as numbers.
fn pair_of(a: &[u8], b: &[u8]) -> Option<(u16, u16)>
    ensures { result ≡ pair_in a.now b.now }
{
    let first = text::whole_number(a, 65535)?;
    let second = text::whole_number(b, 65535)?;
    Some((first, second))
}

// Two words: a BS month.
fn two_words(a: &[u8], b: &[u8]) -> Option<Asked>
    ensures { result ≡ asked_month (pair_in a.now b.now) }
{
    let (y, m) = pair_of(a, b)?;
    Some(Asked::Month(y, m))
}

// Three words: a BS date.
fn three_words(a: &[u8], b: &[u8], c: &[u8]) -> Option<Asked>
    ensures { result ≡ asked_day (pair_in a.now b.now) (number_in c.now) }
{
    let (y, m) = pair_of(a, b)?;
    let d = text::whole_number(c, 65535)?;
    Some(Asked::Day(y, m, d))
}

// What is asked by so many words, three at most.
#[tactic(auto, unfolding(crate::specs::Words::asked_by))]
pub fn asked_by(count: usize, a: &[u8], b: &[u8], c: &[u8]) -> Option<Asked>
    ensures { result ≡ asked_by count a.now b.now c.now }
{
    match count {
        1 => one_word(a),
        2 => two_words(a, b),
        3 => three_words(a, b, c),
        _ => None,
    }
}

// The BS year that is asked by one word.
#[tactic(auto, unfolding(crate::specs::Words::year_by))]
pub fn year_by(count: usize, a: &[u8]) -> Option<u16>
    ensures { result ≡ year_by count a.now }
{
    if count == 1 {
        return text::whole_number(a, 65535);
    }
    None
}

// The Gregorian date that is asked; where it is a BS month or date, one that is before every table's first day.
pub fn date_asked(asked: Asked) -> Date
    ensures { result ≡ date_asked asked }
{
    match asked {
        Asked::Date(date) => date,
        Asked::Month(_, _) | Asked::Day(_, _, _) => FIRST,
    }
}
