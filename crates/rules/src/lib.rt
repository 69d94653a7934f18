// The lent rules, records of eight numbers, and which lists of numbers are good.
#![tactic(auto)]

pub mod lists;

ghost use Rattle.std.specs.Prelude.{◌≡◌, ◌+◌, ◌*◌, ◌/◌, ◌≤◌, length};
ghost use Rattle.conversion.specs.Flat.{flat};
ghost use Rattle.rules.specs.Lent.{accepting};
ghost use Rattle.rules.specs.Rules.{rule_at, rules_of, has_date, rule_good, all_good, count_kind, accepted_rules};

use conversion::Table;
use paper::{Answer, Refusal};

// A rule: fixed BS date (kind 1), fixed Gregorian date (2), computed (3) or override (4). Its numbers are those of a lent list, of any kind.
#[derive(Clone, Copy, PartialEq, Eq)]
pub struct Rule {
    pub kind: u16,
    pub year: u16,
    pub month: u16,
    pub day: u16,
    pub half: u16,
    pub kala: u16,
    pub name: u16,
    pub holiday: u16,
}

// Rule number i of the list.
pub fn rule_at(rules: &[u16], i: usize) -> Rule
    requires { i * 8 + 8 ≤ length rules.now }
    ensures { result ≡ rule_at rules.now i }
{
    let b = i * 8;
    Rule {
        kind: rules[b],
        year: rules[b + 1],
        month: rules[b + 2],
        day: rules[b + 3],
        half: rules[b + 4],
        kala: rules[b + 5],
        name: rules[b + 6],
        holiday: rules[b + 7],
    }
}

// Whether a rule has a month from 1 to 12 and a day from 1 to so many.
fn has_date(r: Rule, most: u16) -> bool
    ensures { result ≡ has_date r most }
{
    (1 <= r.month) & (r.month <= 12) & (1 <= r.day) & (r.day <= most)
}

// Whether a rule keeps the line of its kind.
fn is_good(r: Rule) -> bool
    ensures { result ≡ rule_good r }
{
    let plain = (r.half == 0) & (r.kala == 0);
    let fixed = (r.kind == 1) & (r.year == 0) & has_date(r, 32) & plain;
    let gregorian = (r.kind == 2) & (r.year == 0) & has_date(r, 31) & plain;
    let computed = (r.kind == 3) & (r.year == 0) & has_date(r, 15) & (r.half <= 1) & (r.kala <= 5);
    let other = (r.kind == 4) & has_date(r, 32) & plain;
    (r.holiday <= 1) & (fixed | gregorian | computed | other)
}

// Whether every rule of the list keeps the line of its kind.
fn all_good(rules: &[u16]) -> bool
    ensures { result ≡ all_good (rules_of rules.now) }
{
    // A loop: no proof was found from what std says of `all` over a range to the list of rules.
    let n = rules.len() / 8;
    let mut good = true;
    for i in 0..n {
        good = good & is_good(rule_at(rules, i));
    }
    good
}

// How many rules of the list have the kind k.
fn count_kind(rules: &[u16], k: u16) -> usize
    ensures { result ≡ count_kind k (rules_of rules.now) }
{
    // A loop: no proof was found from what std says of `count` over a range to the list of rules.
    let n = rules.len() / 8;
    let mut count = 0;
    for i in 0..n {
        let r = rule_at(rules, i);
        if r.kind == k {
            count += 1;
        }
    }
    count
}

// Whether the list is good: refusal 2 is given exactly where it is not.
pub fn accepts_rules(rules: &[u16]) -> bool
    ensures { result ≡ accepted_rules rules.now }
{
    if rules.len() % 8 != 0 {
        return false;
    }
    all_good(rules)
        & (count_kind(rules, 1) <= 64)
        & (count_kind(rules, 2) <= 64)
        & (count_kind(rules, 3) <= 64)
        & (count_kind(rules, 4) <= 128)
}

// Whether what is lent is good: the table first, then the rules. Refusals 1, 2.
pub fn accept(table: Table, rows: &[u16], rules: &[u16]) -> Answer<()>
    ensures { result ≡ accepting (flat table rows.now) (accepted_rules rules.now) }
{
    if !conversion::accepts(table, rows) {
        return Err(Refusal::BadTable);
    }
    if !accepts_rules(rules) {
        return Err(Refusal::BadRules);
    }
    Ok(())
}
