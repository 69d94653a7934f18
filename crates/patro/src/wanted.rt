// What is wanted: a page of a month or of a day, or the page of a year.
ghost use Rattle.std.specs.Prelude.{◌≡◌};
ghost use Rattle.commands.specs.Words.{asked_by, year_by};
ghost use Rattle.patro.specs.Years.{wished};

use commands::words;
use commands::words::Asked;

// A page of a month or of a day, or the page of a year.
#[derive(Clone, Copy)]
pub enum Wanted {
    Page(Asked),
    Year(u16),
}

// What so many words want: one word that is a number is a year.
pub fn wanted_by(count: usize, a: &[u8], b: &[u8], c: &[u8]) -> Option<Wanted>
    ensures { result ≡ wished (year_by count a.now) (asked_by count a.now b.now c.now) }
{
    if let Some(year) = words::year_by(count, a) {
        return Some(Wanted::Year(year));
    }
    let page = words::asked_by(count, a, b, c)?;
    Some(Wanted::Page(page))
}
