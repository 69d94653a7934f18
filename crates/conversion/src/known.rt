// Conversion over a year table that was accepted before: its rows are not tested again. On any other table the calls end and stay inside it.
ghost use Rattle.std.specs.Prelude.{◌≡◌, true, ◌≤◌};
ghost use Rattle.conversion.specs.Calendar.{to_ad, from_ad};
ghost use Rattle.conversion.specs.Flat.{accepted, flat, row_count};
ghost use Rattle.conversion.specs.Inner.{column, FoundAt, Begun};

use super::columns::Spot;
use super::{BsDate, Table, check, columns, number_of, place_in, year_count};
use gregorian::Date;
use paper::Answer;

// A row that begins at or before day, as no row has more than 384 days; row 0 where the rows say otherwise.
fn row_before(rows: &[u16], day: u32) -> Spot
    requires { row_count rows.now ≤ 128 }
    ensures { Begun rows.now day result.index result.rest }
{
    let count = year_count(rows);
    let guess = ((day / 384) as usize).min(count);
    let before = columns::span(rows, 12, 13, guess);
    if day < before {
        return Spot {
            index: 0,
            rest: day,
        };
    }
    Spot {
        index: guess,
        rest: day - before,
    }
}

// Which row a day lies in, counted from the first day: the search begins near it.
fn row_at(rows: &[u16], day: u32) -> Spot
    requires { row_count rows.now ≤ 128 }
    ensures { FoundAt (column rows.now 12 13) (row_count rows.now) day result.index result.rest }
{
    let from = row_before(rows, day);
    let p = columns::find(
        rows,
        12 + 13 * from.index,
        13,
        year_count(rows) - from.index,
        from.rest,
    );
    Spot {
        index: from.index + p.index,
        rest: p.rest,
    }
}

// The Gregorian date of a BS date: refusals 4, 5, 6.
pub fn bs_to_ad(table: Table, rows: &[u16], date: BsDate) -> Answer<Date>
    ensures { accepted table rows.now ≡ true
        → result ≡ to_ad (flat table rows.now) date.year date.month date.day }
{
    let start = check::frame(table, rows.len())?;
    let n = number_of(table, rows, start, date)?;
    Date::from_day_number(n)
}

// The BS date of a Gregorian date: refusals 3 and 7, which tells how far outside the table the date lies.
pub fn ad_to_bs(table: Table, rows: &[u16], year: u16, month: u16, day: u16) -> Answer<BsDate>
    ensures { accepted table rows.now ≡ true
        → result ≡ from_ad (flat table rows.now) year month day }
{
    let start = check::frame(table, rows.len())?;
    let n = Date { year, month, day }.day_number()?;
    let p = row_at(rows, n.saturating_sub(start));
    place_in(table, rows, start, n, p.index, p.rest)
}
