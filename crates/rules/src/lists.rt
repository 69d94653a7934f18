// A day's list from its two resolved years: name, holiday, of each rule that falls on the day; neighbours with equal names keep the first.
ghost use Rattle.std.specs.Prelude.{◌≡◌, true, ◌+◌, ◌*◌, ◌/◌, ◌≤◌, length, set};
ghost use Rattle.std.proofs.lemmas.List.Edits.{sets};
ghost use Rattle.rules.specs.Rules.{rules_of, count_kind, accepted_rules};
ghost use Rattle.rules.specs.Festivals.{picked, overrides, silenced, is_fixed, is_gregorian, is_override, numbers};
ghost use Rattle.rules.specs.Resolved.{shows, used_in, used_early, falls, list_by};
ghost use Rattle.rules.specs.Inner.{repeats, store_if, store_pairs};

use crate::{Rule, rule_at};
use conversion::BsDate;
use gregorian::Date;

// A resolved year: the day number of each computed rule, in list order; 0 for nothing.
#[derive(Clone, Copy)]
pub struct Resolved {
    pub days: [u32; 64],
}

// The two resolved years that the lists of a month come from: the year before, which counts in months 1 and 2 alone, and the month's own.
#[derive(Clone, Copy)]
pub struct Years {
    pub before: Resolved,
    pub this: Resolved,
}

// A day: its BS date, its Gregorian date and its number.
#[derive(Clone, Copy)]
pub struct Day {
    pub bs: BsDate,
    pub ad: Date,
    pub number: u32,
}

// How many pairs stand in the buffer, and the name of the last one where it is of this day.
#[derive(Clone, Copy)]
pub struct Kept {
    pub n: usize,
    pub last: Option<u16>,
}

// Stores x at index i, if there is such an index.
pub fn set_at(buf: &mut [u16], i: usize, x: u16)
    ensures { buf.new ≡ set buf.old i x }
{
    if i < buf.len() {
        buf[i] = x;
    }
}

// Whether a name is that of the pair kept last.
fn is_repeat(s: Kept, name: u16) -> bool
    ensures { result ≡ repeats s name }
{
    s.last == Some(name)
}

// Keeps a pair where `on` says so and its name is not the last one.
fn keep_pair(buf: &mut [u16], s: Kept, on: bool, name: u16, holiday: u16) -> Kept
    requires { s.n ≤ 4611686018427387903 }
    ensures result_after { (buf.new, result) ≡ store_if on (buf.old, s) name holiday }
    ensures n_bound { result.n ≤ s.n + 1 }
{
    if !on {
        return s;
    }
    if is_repeat(s, name) {
        return s;
    }
    let at = s.n * 2;
    set_at(buf, at, name);
    set_at(buf, at + 1, holiday);
    Kept {
        n: s.n + 1,
        last: Some(name),
    }
}

fn is_fixed(bs: BsDate, r: Rule) -> bool
    ensures { result ≡ is_fixed bs r }
{
    (r.kind == 1) & (r.month == bs.month) & (r.day == bs.day)
}

fn is_gregorian(ad: Date, r: Rule) -> bool
    ensures { result ≡ is_gregorian ad r }
{
    (r.kind == 2) & (r.month == ad.month) & (r.day == ad.day)
}

fn is_override(bs: BsDate, r: Rule) -> bool
    ensures { result ≡ is_override bs r }
{
    (r.kind == 4) & (r.year == bs.year) & (r.month == bs.month) & (r.day == bs.day)
}

// Whether a rule of kind k with a date of its own falls on the day.
fn falls_on(k: u16, day: Day, r: Rule) -> bool
    ensures { result ≡ falls k day r }
{
    match k {
        1 => is_fixed(day.bs, r),
        2 => is_gregorian(day.ad, r),
        _ => is_override(day.bs, r),
    }
}

// The pairs of the rules of kind k that fall on the day.
fn put_dated(rules: &[u16], k: u16, day: Day, buf: &mut [u16], s: Kept) -> Kept
    requires { s.n + length rules.now / 8 ≤ 4611686018427387903 }
    ensures result_after { (buf.new, result) ≡ store_pairs (buf.old, s) (picked (falls k day) (rules_of rules.now)) }
    ensures n_bound { result.n ≤ s.n + length rules.now / 8 }
{
    let n = rules.len() / 8;
    let mut t = s;
    for i in 0..n {
        let r = rule_at(rules, i);
        t = keep_pair(buf, t, falls_on(k, day, r), r.name, r.holiday);
    }
    t
}

fn overrides_it(r: Rule, year: u16, name: u16) -> bool
    ensures { result ≡ overrides year name r }
{
    (r.kind == 4) & (r.year == year) & (r.name == name)
}

// Whether an override of the year has the name.
fn is_silenced(rules: &[u16], year: u16, name: u16) -> bool
    ensures { result ≡ silenced (rules_of rules.now) year name }
{
    // A loop: no proof was found from what std says of `any` over a range to the list of rules.
    let n = rules.len() / 8;
    let mut found = false;
    for i in 0..n {
        found = found | overrides_it(rule_at(rules, i), year, name);
    }
    found
}

// Whether a computed rule with this name, entered at day k, shows on day n of the year.
fn shows_on(rules: &[u16], year: u16, name: u16, k: u32, n: u32) -> bool
    ensures { result ≡ shows (rules_of rules.now) year name k n }
{
    k == n && !is_silenced(rules, year, name)
}

// The pairs of the computed rules whose entry of a resolved year is day n of the year.
fn put_resolved(
    rules: &[u16],
    year: u16,
    entries: Resolved,
    n: u32,
    buf: &mut [u16],
    s: Kept,
) -> Kept
    requires rules_bound { count_kind 3 (rules_of rules.now) ≤ 64 }
    requires rules_bound_2 { s.n + length rules.now / 8 ≤ 4611686018427387903 }
    ensures result_after { (buf.new, result) ≡ store_pairs (buf.old, s) (used_in (rules_of rules.now) year entries.days n) }
    ensures n_bound { result.n ≤ s.n + length rules.now / 8 }
{
    let count = rules.len() / 8;
    let mut t = s;
    let mut j = 0;
    for i in 0..count {
        let r = rule_at(rules, i);
        if r.kind != 3 {
            continue;
        }
        let k = entries.days[j];
        j += 1;
        t = keep_pair(
            buf,
            t,
            shows_on(rules, year, r.name, k, n),
            r.name,
            r.holiday,
        );
    }
    t
}

// The last month in which the year before is asked.
const LAST_ASKED: u16 = 2;

// The pairs of the year before, asked in months 1 and 2 only.
fn put_before(rules: &[u16], day: Day, entries: Resolved, buf: &mut [u16], s: Kept) -> Kept
    requires rules_bound { count_kind 3 (rules_of rules.now) ≤ 64 }
    requires rules_bound_2 { s.n + length rules.now / 8 ≤ 4611686018427387903 }
    ensures result_after { (buf.new, result) ≡ store_pairs (buf.old, s) (used_early (rules_of rules.now) day entries.days) }
    ensures n_bound { result.n ≤ s.n + length rules.now / 8 }
{
    if LAST_ASKED < day.bs.month {
        return s;
    }
    put_resolved(rules, day.bs.year, entries, day.number, buf, s)
}

// The day's list, after the `at` pairs that stand in buf, as far as buf goes; how many pairs stand there then.
pub fn put_day_list(rules: &[u16], day: Day, years: Years, buf: &mut [u16], at: usize) -> usize
    requires rules_value { accepted_rules rules.now ≡ true }
    requires at_bound { at ≤ 1000000 }
    ensures buf_after { buf.new ≡ sets buf.old (at * 2) (numbers (list_by (rules_of rules.now) day years)) }
    ensures value { result ≡ at + length (list_by (rules_of rules.now) day years) }
    ensures upper_bound { result ≤ at + 384 }
{
    let none = Kept { n: at, last: None };
    let fixed = put_dated(rules, 1, day, buf, none);
    let both = put_dated(rules, 2, day, buf, fixed);
    let prior = put_before(rules, day, years.before, buf, both);
    let own = put_resolved(rules, day.bs.year, years.this, day.number, buf, prior);
    let whole = put_dated(rules, 4, day, buf, own);
    whole.n
}
