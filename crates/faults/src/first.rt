// The first field of the first rule that is not as its kind asks, and the first rule that is one too many of its kind.
ghost use Rattle.std.specs.Prelude.{◌≡◌};
ghost use Rattle.rules.specs.Rules.{rules_of};
ghost use Rattle.faults.specs.Faults as Faults;
ghost use Rattle.faults.specs.Faults.{number_in, first_field, first_from, over_from, many_of, first_fault};

use rules::Rule;

// A field of a rule that can break a rule; the name is free and has no place here.
#[derive(Clone, Copy)]
pub enum Field {
    Kind,
    Year,
    Month,
    Day,
    Half,
    Kala,
    Holiday,
}

// The fields in the order in which they are asked.
const FIELDS: [Field; 7] = [
    Field::Kind,
    Field::Year,
    Field::Month,
    Field::Day,
    Field::Half,
    Field::Kala,
    Field::Holiday,
];

// What a list breaks first: its numbers are no whole rules; a field of the rule that so many come before, with that rule; or the rule with so many
// before it is one more of its kind than allowed.
#[derive(Clone, Copy)]
pub enum Fault {
    Uneven,
    At(usize, Field, Rule),
    Many(usize, u16),
}

// The number that stands in a field.
pub fn number_in(r: Rule, f: Field) -> u16
    ensures { result ≡ number_in r f }
{
    match f {
        Field::Kind => r.kind,
        Field::Year => r.year,
        Field::Month => r.month,
        Field::Day => r.day,
        Field::Half => r.half,
        Field::Kala => r.kala,
        Field::Holiday => r.holiday,
    }
}

// The smallest number that a field may have.
pub fn least(f: Field) -> u16
    ensures { result ≡ Faults.least f }
{
    match f {
        Field::Kind => 1,
        Field::Year => 0,
        Field::Month => 1,
        Field::Day => 1,
        Field::Half => 0,
        Field::Kala => 0,
        Field::Holiday => 0,
    }
}

// The last day that a rule of a kind may name.
#[tactic(auto, unfolding(crate::specs::Faults::most_day))]
fn most_day(kind: u16) -> u16
    ensures { result ≡ Faults.most_day kind }
{
    if kind == 2 {
        return 31;
    }
    if kind == 3 {
        return 15;
    }
    32
}

// A number in rules of one kind, another in the others.
#[tactic(auto, unfolding(crate::specs::Faults::only_in))]
fn only_in(kind: u16, one: u16, n: u16, other: u16) -> u16
    ensures { result ≡ Faults.only_in kind one n other }
{
    if kind == one { n } else { other }
}

// The largest number that a field of this rule may have. The year of an override is any, so it is its own bound.
pub fn most(r: Rule, f: Field) -> u16
    ensures { result ≡ Faults.most r f }
{
    match f {
        Field::Kind => 4,
        Field::Year => only_in(r.kind, 4, r.year, 0),
        Field::Month => 12,
        Field::Day => most_day(r.kind),
        Field::Half => only_in(r.kind, 3, 1, 0),
        Field::Kala => only_in(r.kind, 3, 5, 0),
        Field::Holiday => 1,
    }
}

// Whether a field has a number that it may not have.
fn breaks(r: Rule, f: Field) -> bool
    ensures { result ≡ Faults.breaks r f }
{
    let n = number_in(r, f);
    (n < least(f)) | (most(r, f) < n)
}

// The first field of a rule that breaks the line of its kind.
#[tactic(auto, unfolding(crate::specs::Faults::first_field))]
fn first_field(r: Rule) -> Option<Field>
    ensures { result ≡ first_field r }
{
    FIELDS.iter().copied().find(|f| breaks(r, *f))
}

// The first rule of the list that breaks the line of its kind.
fn first_rule(rules: &[u16]) -> Option<Fault>
    ensures { result ≡ first_from (rules_of rules.now) 0 }
{
    for i in 0..rules.len() / 8 {
        let r = rules::rule_at(rules, i);
        if let Some(f) = first_field(r) {
            return Some(Fault::At(i, f, r));
        }
    }
    None
}

// The rule of a kind that as many of its kind come before as are allowed.
fn one_over(rules: &[u16], kind: u16, allowed: usize) -> Option<Fault>
    ensures { result ≡ over_from kind allowed (rules_of rules.now) 0 }
{
    let mut left = allowed;
    for i in 0..rules.len() / 8 {
        if rules::rule_at(rules, i).kind != kind {
            continue;
        }
        if left == 0 {
            return Some(Fault::Many(i, kind));
        }
        left -= 1;
    }
    None
}

// The first rule that is one too many of its kind: of kind 1, then of 2, 3 and 4.
#[tactic(auto, unfolding(crate::specs::Faults::many_of))]
fn many_of(rules: &[u16]) -> Option<Fault>
    ensures { result ≡ many_of (rules_of rules.now) }
{
    one_over(rules, 1, 64)
        .or_else(|| one_over(rules, 2, 64))
        .or_else(|| one_over(rules, 3, 64))
        .or_else(|| one_over(rules, 4, 128))
}

// What a list of rules breaks first: nothing exactly where it is accepted.
#[tactic(auto, unfolding(crate::specs::Faults::first_fault))]
pub fn first_fault(rules: &[u16]) -> Option<Fault>
    ensures { result ≡ first_fault rules.now }
{
    if rules.len() % 8 != 0 {
        return Some(Fault::Uneven);
    }
    first_rule(rules).or_else(|| many_of(rules))
}
