// The five warnings that a rule of a list can have. Where a function takes j, so many rules come before it.
ghost use Rattle.std.specs.Prelude.{◌≡◌, ◌*◌, ◌≤◌, length};
ghost use Rattle.std.specs.Option.{option_copied};
ghost use Rattle.conversion.specs.Flat.{flat};
ghost use Rattle.rules.specs.Rules.{rules_from};
ghost use Rattle.warnings.specs.Warnings as Warnings;
ghost use Rattle.warnings.specs.Warnings.{no_text, no_day};

use crate::search;
use crate::search::Like;
use conversion::Table;
use rules::Rule;

// What there is to warn of: the rule is the same as the one that so many come before; its name is that of another festival, of that rule; its name has no
// text; the rule gives a day of a month that has only so many; its name is that of a rule with a fixed date, of that one.
#[derive(Clone, Copy)]
pub enum Warning {
    Twice(usize),
    Shared(u16, usize),
    NoText(u16),
    NoDay(Rule, u16),
    Beside(u16, usize),
}

// Whether a rule before it is the same.
pub fn twice(rules: &[u16], j: usize, r: Rule) -> Option<Warning>
    requires { j * 8 ≤ length rules.now }
    ensures { result ≡ Warnings.twice (rules_from rules.now 0 j) r }
{
    let i = search::first_like(rules, j, Like::Same, r)?;
    Some(Warning::Twice(i))
}

// Whether it is a festival, and another festival before it has its name.
#[tactic(auto, unfolding(crate::specs::Warnings::shared))]
pub fn shared(rules: &[u16], j: usize, r: Rule) -> Option<Warning>
    requires { j * 8 ≤ length rules.now }
    ensures { result ≡ Warnings.shared (rules_from rules.now 0 j) r }
{
    if !search::is_festival(r) {
        return None;
    }
    let i = search::first_like(rules, j, Like::Other, r)?;
    Some(Warning::Shared(r.name, i))
}

// Whether the names, where there are any, have no text for its name, and no rule before it has this name.
#[tactic(auto, unfolding(crate::specs::Warnings::no_text))]
pub fn no_text(rules: &[u16], j: usize, names: Option<&[u8]>, r: Rule) -> Option<Warning>
    requires { j * 8 ≤ length rules.now }
    ensures { result ≡ no_text (option_copied names.entry) (rules_from rules.now 0 j) r }
{
    let text = names?;
    if naming::has_name(text, r.name) {
        return None;
    }
    match search::first_like(rules, j, Like::Named, r) {
        Some(_) => None,
        None => Some(Warning::NoText(r.name)),
    }
}

// Whether it gives a date whose month the table has, and the month ends before that day.
#[tactic(auto, unfolding(crate::specs::Warnings::no_day))]
pub fn no_day(table: Table, rows: &[u16], r: Rule) -> Option<Warning>
    ensures { result ≡ no_day (flat table rows.now) r }
{
    if r.kind != 4 {
        return None;
    }
    let n = conversion::bs_month_len(table, rows, r.year, r.month).ok()?;
    if n < r.day {
        return Some(Warning::NoDay(r, n));
    }
    None
}

// Whether it gives a date to a name that a rule with a fixed date has, of the first n rules.
#[tactic(auto, unfolding(crate::specs::Warnings::beside))]
pub fn beside(rules: &[u16], n: usize, r: Rule) -> Option<Warning>
    requires { n * 8 ≤ length rules.now }
    ensures { result ≡ Warnings.beside (rules_from rules.now 0 «n») r }
{
    if r.kind != 4 {
        return None;
    }
    let i = search::first_like(rules, n, Like::Yearly, r)?;
    Some(Warning::Beside(r.name, i))
}
