// Where a year table first breaks a rule.
ghost use Rattle.std.specs.Prelude.{◌≡◌};
ghost use Rattle.tables.specs.Breaks.{column, row_from, place, first_broken};

use conversion::Table;

// The first rule on year tables (docs/RULES.md) that a table breaks: the first year is not 1 to 3,000; no row; more than 128; no such
// Gregorian date, or one before 1901; in a row, counted from 0, the column of a month that has not 29 to 32 days, or 12 for a sum that is another,
// with the number that stands there; or the last day is after 2099.
#[derive(Clone, Copy)]
pub enum Broken {
    FirstYear,
    NoRow,
    ManyRows,
    NoDate,
    FirstDay,
    Cell(usize, usize, u16),
    LastDay,
}

// The days of the shortest and of the longest month.
const SHORTEST: u16 = 29;

const LONGEST: u16 = 32;

// The first column of row i that breaks a rule.
fn column_of(rows: &[u16], i: usize) -> Option<usize>
    ensures { result ≡ column rows.now i }
{
    let mut days: u16 = 0;
    for m in 0..12 {
        let len = conversion::number_at(rows, i, m);
        if len < SHORTEST {
            return Some(m);
        }
        if LONGEST < len {
            return Some(m);
        }
        days += len;
    }
    if conversion::number_at(rows, i, 12) == days {
        None
    } else {
        Some(12)
    }
}

// The first row that breaks a rule, of n rows; the last day where none does.
fn row_of(rows: &[u16], n: usize) -> Broken
    ensures { result ≡ row_from rows.now n 0 }
{
    for i in 0..n {
        if let Some(m) = column_of(rows, i) {
            return Broken::Cell(i, m, conversion::number_at(rows, i, m));
        }
    }
    Broken::LastDay
}

// The first line that a table breaks which breaks one.
fn place_of(table: Table, rows: &[u16]) -> Broken
    ensures { result ≡ place table rows.now }
{
    if table.first_year < 1 {
        return Broken::FirstYear;
    }
    if 3000 < table.first_year {
        return Broken::FirstYear;
    }
    let n = conversion::year_count(rows);
    if n < 1 {
        return Broken::NoRow;
    }
    if 128 < n {
        return Broken::ManyRows;
    }
    let Ok(start) = conversion::first_day(table) else {
        return Broken::NoDate;
    };
    if start < 2415386 {
        return Broken::FirstDay;
    }
    row_of(rows, n)
}

// The first line that a table of whole rows breaks: none exactly where it is accepted.
pub fn first_broken(table: Table, rows: &[u16]) -> Option<Broken>
    ensures { result ≡ first_broken table rows.now }
{
    if conversion::accepts(table, rows) {
        return None;
    }
    Some(place_of(table, rows))
}
