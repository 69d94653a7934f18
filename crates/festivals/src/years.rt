// The computed entries of a BS year.
ghost use Rattle.std.specs.Prelude.{◌≡◌, true, ◌-◌};
ghost use Rattle.sky.specs.Answers.{first_says};
ghost use Rattle.conversion.specs.Flat.{accepted, flat};
ghost use Rattle.rules.specs.Rules.{rule_good, rules_of, accepted_rules};
ghost use Rattle.rules.specs.Festivals.{beginning};
ghost use Rattle.festivals.specs.Kathmandu.{kathmandu, resolved_year, years_in};
ghost use Rattle.festivals.specs.Months.{month_at, day_by};

use super::days::festival_date;
use super::months::{Months, lunar_months};
use conversion::Table;
use gregorian::UtDay;
use rules::Rule;
use rules::lists::{Resolved, Years};
use sky::search;

// Where a tithi begins, by its new moon: tithi 1 at the new moon itself, another from 0.5 to 30.0 days after it.
fn beginning_of(tithi: u16, moon: UtDay) -> Option<UtDay>
    ensures { first_says result ≡ beginning kathmandu tithi moon.0 }
{
    if tithi == 1 {
        return Some(moon);
    }
    search::first_start(tithi, UtDay(moon.0 + 0.5), UtDay(moon.0 + 30.0))
}

// The day of a computed rule, by the lunar months of the year.
#[tactic(auto, unfolding(crate::specs::Months::day_by, crate::specs::Months::month_at, rules::specs::Days::next), using(rules::proofs::Accepted::computed_of))]
fn rule_day(months: Months, r: Rule) -> Option<u32>
    requires { (rule_good r ≡ true) × (r.kind ≡ 3) }
    ensures { result ≡ day_by kathmandu r (month_at months (r.month - 1)) }
{
    let moon = months.opens[(r.month - 1) as usize]?;
    let tithi = r.day + 15 * r.half;
    let start = beginning_of(tithi, UtDay(moon))?;
    festival_date(tithi, r.kala, start)
}

// The computed entries of a year. A rule whose day is outside the table gives nothing; the others go on.
pub fn resolve_year(table: Table, rows: &[u16], rules: &[u16], year: u16) -> Resolved
    requires { (accepted table rows.now ≡ true) × (accepted_rules rules.now ≡ true) }
    ensures { result.days ≡ resolved_year (flat table rows.now) (rules_of rules.now) year }
{
    let months = lunar_months(table, rows, year);
    let mut out = Resolved { days: [0; 64] };
    let mut j = 0;
    for i in 0..rules.len() / 8 {
        let r = rules::rule_at(rules, i);
        if r.kind != 3 {
            continue;
        }
        let at = j;
        j += 1;
        let Some(k) = rule_day(months, r) else {
            continue;
        };
        let Ok(_) = conversion::place(table, rows, k) else {
            continue;
        };
        out.days[at] = k;
    }
    out
}

// The year before; 0 for year 0.
pub fn year_before(year: u16) -> u16
    ensures { result ≡ year - 1 }
{
    year.saturating_sub(1)
}

// The computed entries of the year before, which is asked in months 1 and 2 only: past them all places are 0.
#[tactic(auto, unfolding(rules::specs::Resolved::years_for))]
fn resolve_before(table: Table, rows: &[u16], rules: &[u16], year: u16, month: u16) -> Resolved
    requires { (accepted table rows.now ≡ true) × (accepted_rules rules.now ≡ true) }
    ensures { result ≡ (years_in (flat table rows.now) (rules_of rules.now) year month).before }
{
    if 2 < month {
        return Resolved { days: [0; 64] };
    }
    resolve_year(table, rows, rules, year_before(year))
}

// The two years that the lists of a month come from, each resolved once.
#[tactic(auto, unfolding(rules::specs::Resolved::years_for))]
pub fn years_for(table: Table, rows: &[u16], rules: &[u16], year: u16, month: u16) -> Years
    requires { (accepted table rows.now ≡ true) × (accepted_rules rules.now ≡ true) }
    ensures { result ≡ years_in (flat table rows.now) (rules_of rules.now) year month }
{
    let before = resolve_before(table, rows, rules, year, month);
    let this = resolve_year(table, rows, rules, year);
    Years { before, this }
}
