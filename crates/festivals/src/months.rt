// The lunar months of a BS year.
ghost use Rattle.std.specs.Prelude.{◌≡◌, true, ◌++◌, ◌≤◌, length, take, drop};
ghost use Rattle.conversion.specs.Flat.{accepted, flat};
ghost use Rattle.festivals.specs.Kathmandu.{moons_around, last_in, opening_in};
ghost use Rattle.festivals.specs.Months.{year_days, months_by};

use super::days::nepal_day;
use conversion::{BsDate, Table};
use gregorian::UtDay;
use sky::search;

// The new moon that opens each lunar month, where one does.
#[derive(Clone, Copy)]
pub struct Months {
    pub opens: [Option<f64>; 12],
}

// The first and the last day of a year of an accepted table.
#[tactic(auto, using(crate::proofs::TableYears::asked_days))]
pub fn year_days(table: Table, rows: &[u16], year: u16) -> Option<(u32, u32)>
    requires { accepted table rows.now ≡ true }
    ensures { result ≡ year_days (flat table rows.now) year }
{
    let first = BsDate {
        year,
        month: 1,
        day: 1,
    };
    let a = conversion::day_of(table, rows, first).ok()?;
    let len = conversion::month_days(table, rows, year, 12).ok()?;
    let last = BsDate {
        year,
        month: 12,
        day: len,
    };
    let b = conversion::day_of(table, rows, last).ok()?;
    Some((a, b))
}

// The new moons from 35 days before 0h of one day to 5 after 0h of another, to the front of `found`; how many they are. What lies past them stays.
pub fn new_moons(first: u32, last: u32, found: &mut [f64; 1024]) -> usize
    requires { length found.old ≡ 1024 }
    ensures count { result ≡ length (moons_around first last) }
    ensures written { found.new ≡ moons_around first last ++ drop result found.old }
{
    let from = UtDay(gregorian::zero_hour(first) - 35.0);
    let to = UtDay(gregorian::zero_hour(last) + 5.0);
    let walked = search::walk(1, from, to, found);
    walked.count
}

// The lunar months of a year by the first n of its new moons found: the last in each month opens it. A new moon whose day is outside the table or in
// another year opens none.
pub fn months_of(table: Table, rows: &[u16], year: u16, found: &[f64; 1024], n: usize) -> Months
    requires { (accepted table rows.now ≡ true) × (n ≤ 1024) × (length found.now ≡ 1024) }
    ensures { result ≡ months_by (λ m. last_in (flat table rows.now) year m (take n found.now)) }
{
    let mut m = Months { opens: [None; 12] };
    for &x in &found[..n] {
        let Some(k) = nepal_day(UtDay(x)) else {
            continue;
        };
        let Ok(date) = conversion::place(table, rows, k) else {
            continue;
        };
        if date.year != year {
            continue;
        }
        m.opens[(date.month - 1) as usize] = Some(x);
    }
    m
}

// The lunar months of a year; a year not in the table has none.
pub fn lunar_months(table: Table, rows: &[u16], year: u16) -> Months
    requires { accepted table rows.now ≡ true }
    ensures { result ≡ months_by (opening_in (flat table rows.now) year) }
{
    let mut found = [0.0; 1024];
    let Some((first, last)) = year_days(table, rows, year) else {
        return months_of(table, rows, year, &found, 0);
    };
    let n = new_moons(first, last, &mut found);
    months_of(table, rows, year, &found, n)
}
