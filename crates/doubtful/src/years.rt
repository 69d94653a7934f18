// The doubtful new moons of BS years, and their lunar months that no new moon opens.
ghost use Rattle.std.specs.Prelude.{◌≡◌, true, ◌+◌, ◌-◌, ◌≤◌, length, take};
ghost use Rattle.rules.specs.Rules.{rules_of};
ghost use Rattle.conversion.specs.Flat.{accepted, flat};
ghost use Rattle.doubtful.specs.Inner.{Opened, has_place, opens_place};
ghost use Rattle.doubtful.specs.Years.{sheet, dated_line, month_line, month_lines, placed_line, moon_line, moon_lines, year_page, years_page};

use crate::page;
use crate::page::Page;
use conversion::{BsDate, Table};
use festivals::months;
use festivals::months::Months;
use gregorian::UtDay;

// A new moon on a date of a month of len days, if it is doubtful.
fn put_dated_moon(
    p: Page,
    out: &mut [u8],
    x: UtDay,
    n: u32,
    date: BsDate,
    len: u16,
    opens: bool,
    rules: &[u16],
    names: &[u8],
) -> Page
    ensures { sheet out.new result ≡ dated_line (rules_of rules.now) names.now x.0 «n» date opens len
        (sheet out.old p) }
{
    match notes::near(x, n, date.day, len) {
        Some((after, minutes)) => {
            let h = page::put_heading(p, out, date.year);
            let g = h.out;
            let o = notes::put_moment(g, out, x, n);
            let b = notes::put_beside(o, out, date, opens, after, minutes, rules, names);
            page::tallied(h, b, true, after, opens)
        }
        None => {
            if opens {
                return p;
            }
            let h = page::put_heading(p, out, date.year);
            let g = h.out;
            let o = notes::put_moment(g, out, x, n);
            let b = notes::put_opening(o, out, date, opens);
            page::tallied(h, b, false, false, opens)
        }
    }
}

// Whether a new moon is the one that opens a lunar month.
fn opens_month(m: Months, month: u16, x: f64) -> bool
    ensures { result ≡ opens_place m month x }
{
    if (month < 1) | (12 < month) {
        return false;
    }
    let opens = m.opens[(month - 1) as usize];
    match opens {
        Some(opening) => opening == x,
        None => false,
    }
}

// A new moon on a date of the year, if it is doubtful.
fn put_placed_moon(
    p: Page,
    out: &mut [u8],
    table: Table,
    rows: &[u16],
    year: u16,
    x: UtDay,
    n: u32,
    date: BsDate,
    m: Months,
    rules: &[u16],
    names: &[u8],
) -> Page
    requires { (accepted table rows.now ≡ true) × Opened (flat table rows.now) year m }
    ensures { sheet out.new result ≡ placed_line (flat table rows.now) year (rules_of rules.now) names.now
        x.0 «n» date (sheet out.old p) }
{
    let Ok(len) = conversion::month_days(table, rows, date.year, date.month) else {
        return p;
    };
    let opens = opens_month(m, date.month, x.0);
    put_dated_moon(p, out, x, n, date, len, opens, rules, names)
}

// A new moon, if it is doubtful and its day is one of the year.
fn put_moon(
    p: Page,
    out: &mut [u8],
    table: Table,
    rows: &[u16],
    year: u16,
    x: UtDay,
    m: Months,
    rules: &[u16],
    names: &[u8],
) -> Page
    requires { (accepted table rows.now ≡ true) × Opened (flat table rows.now) year m }
    ensures { sheet out.new result ≡ moon_line (flat table rows.now) year (rules_of rules.now) names.now
        x.0 (sheet out.old p) }
{
    let Some((n, date)) = notes::date_of(table, rows, x) else {
        return p;
    };
    if date.year != year {
        return p;
    }
    put_placed_moon(p, out, table, rows, year, x, n, date, m, rules, names)
}

// The doubtful ones of the first n new moons that were found around a year.
fn put_moons(
    p: Page,
    out: &mut [u8],
    table: Table,
    rows: &[u16],
    year: u16,
    found: &[f64; 1024],
    n: usize,
    m: Months,
    rules: &[u16],
    names: &[u8],
) -> Page
    requires rows_value { (accepted table rows.now ≡ true) × Opened (flat table rows.now) year m }
    requires n_bound { (n ≤ 1024) × (length found.now ≡ 1024) }
    ensures { sheet out.new result ≡ moon_lines (flat table rows.now) year (rules_of rules.now) names.now
        (take «n» found.now) (sheet out.old p) }
{
    let mut q = p;
    for &x in &found[..n] {
        q = put_moon(q, out, table, rows, year, UtDay(x), m, rules, names);
    }
    q
}

// A lunar month of the year, unless a new moon opens it.
fn put_unopened_month(
    p: Page,
    out: &mut [u8],
    opened: bool,
    year: u16,
    month: u16,
    rules: &[u16],
    names: &[u8],
) -> Page
    ensures { sheet out.new result ≡ month_line (rules_of rules.now) names.now year opened month
        (sheet out.old p) }
{
    if opened {
        return p;
    }
    let h = page::put_heading(p, out, year);
    let o = h.out;
    let a = notes::put_no_moon(o, out, year, month);
    let b = notes::put_month_rules(a, out, month, rules, names);
    Page {
        out: b,
        headed: true,
        empty: page::more(h.empty),
        ..h
    }
}

// The lunar months of the year that no new moon opens.
fn put_unopened_months(
    p: Page,
    out: &mut [u8],
    year: u16,
    m: Months,
    rules: &[u16],
    names: &[u8],
) -> Page
    ensures { sheet out.new result ≡ month_lines (rules_of rules.now) names.now year (has_place m) 0 12
        (sheet out.old p) }
{
    let mut q = p;
    for j in 0..12 {
        let opened = m.opens[j].is_some();
        q = put_unopened_month(q, out, opened, year, j as u16 + 1, rules, names);
    }
    q
}

// The doubtful new moons and the unopened lunar months of a year of an accepted table; nothing for another year.
pub fn put_year(
    p: Page,
    out: &mut [u8],
    table: Table,
    rows: &[u16],
    year: u16,
    rules: &[u16],
    names: &[u8],
) -> Page
    requires { accepted table rows.now ≡ true }
    ensures { sheet out.new result ≡ year_page (flat table rows.now) year (rules_of rules.now) names.now
        (sheet out.old p) }
{
    let mut found = [0.0; 1024];
    let Some((first, last)) = months::year_days(table, rows, year) else {
        return p;
    };
    let n = months::new_moons(first, last, &mut found);
    let m = months::months_of(table, rows, year, &found, n);
    let q = put_moons(
        page::unheaded(p),
        out,
        table,
        rows,
        year,
        &found,
        n,
        m,
        rules,
        names,
    );
    put_unopened_months(q, out, year, m, rules, names)
}

// The years of an accepted table from one to another.
pub fn put_years(
    p: Page,
    out: &mut [u8],
    table: Table,
    rows: &[u16],
    first: u16,
    last: u16,
    rules: &[u16],
    names: &[u8],
) -> Page
    requires { accepted table rows.now ≡ true }
    ensures { sheet out.new result ≡ years_page (flat table rows.now) (rules_of rules.now) names.now first
        (last + 1 - first) (sheet out.old p) }
{
    let mut q = p;
    for year in first..=last {
        q = put_year(q, out, table, rows, year, rules, names);
    }
    q
}
