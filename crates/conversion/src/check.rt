// Whether a lent year table keeps the rules of docs/RULES.md, What is lent, in one pass over its rows.
ghost use Rattle.std.specs.Prelude.{◌≡◌, ◌+◌, ◌*◌, ◌≤◌, length};
ghost use Rattle.conversion.specs.Inner.{Begins, row_answer, further_of, pass_of_rows, frame_answer, pass_answer, whole_answer};

use super::{Table, first_day, year_count};
use paper::{Answer, Refusal};

// What one pass over the rows of a table finds: the days of all of them; and how many rows, with how many days, lie before a row and a day
// that it was asked for.
#[derive(Clone, Copy)]
pub struct Passed {
    pub days: u32,
    pub row: usize,
    pub before: u32,
}

// The days of row i, where it keeps its rules. No month that passes has 64 days, so the sum is of the lengths and stays small; there is one
// branch a row.
pub fn row_days(rows: &[u16], i: usize) -> Option<u32>
    requires { 13 * i + 13 ≤ length rows.now }
    ensures { result ≡ row_answer rows.now i }
{
    let mut days: u16 = 0;
    let mut good = true;
    for m in 0..12 {
        let len = rows[13 * i + m];
        good = good & ((29 <= len) & (len <= 32));
        days += len % 64;
    }
    good = good & (rows[13 * i + 12] == days);
    if good { Some(days as u32) } else { None }
}

// A pass with one row more, so that i rows have these days: how far it reached.
pub fn further(p: Passed, i: usize, days: u32, until: usize, day: u32) -> Passed
    ensures { result ≡ further_of p i days until day }
{
    if (i <= until) & (days <= day) {
        return Passed {
            days,
            row: i,
            before: days,
        };
    }
    Passed { days, ..p }
}

// The one pass over count rows, up to row until and to day; none where one of them breaks a rule.
pub fn pass(rows: &[u16], count: usize, until: usize, day: u32) -> Option<Passed>
    requires { (count ≤ 128) × (13 * count ≤ length rows.now) }
    ensures { result ≡ pass_of_rows rows.now count until day }
{
    let mut p = Passed {
        days: 0,
        row: 0,
        before: 0,
    };
    for i in 0..count {
        let len = row_days(rows, i)?;
        p = further(p, i + 1, p.days + len, until, day);
    }
    Some(p)
}

// The number of the first day of a table with len numbers in its rows; refused where something else than the rows breaks a rule.
pub fn frame(table: Table, len: usize) -> Answer<u32>
    ensures { result ≡ frame_answer table len }
{
    let count = len / 13;
    let years = (1 <= table.first_year) & (table.first_year <= 3000);
    let whole = (len == 13 * count) & (1 <= count) & (count <= 128);
    match first_day(table) {
        Ok(start) if years & whole & (2415386 <= start) => Ok(start),
        _ => Err(Refusal::BadTable),
    }
}

// The one pass over a table whose first day is start; refused where the table is not accepted.
pub fn pass_table(table: Table, rows: &[u16], start: u32, until: usize, day: u32) -> Answer<Passed>
    requires { Begins table rows.now start }
    ensures { result ≡ pass_answer table rows.now until day }
{
    let p = pass(rows, year_count(rows), until, day).ok_or(Refusal::BadTable)?;
    if 2488070 < start + p.days {
        return Err(Refusal::BadTable);
    }
    Ok(p)
}

// The one pass over a table, for nothing but whether it is accepted.
pub fn whole(table: Table, rows: &[u16]) -> Answer<()>
    ensures { result ≡ whole_answer table rows.now }
{
    let start = frame(table, rows.len())?;
    pass_table(table, rows, start, 0, 0)?;
    Ok(())
}
