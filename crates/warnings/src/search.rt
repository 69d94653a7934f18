// Another rule of the list that stands to a rule in a certain way: the first.
ghost use Rattle.std.specs.Prelude.{◌≡◌, ◌*◌, ◌≤◌, length};
ghost use Rattle.rules.specs.Rules.{rules_from};
ghost use Rattle.warnings.specs.Warnings as Warnings;
ghost use Rattle.warnings.specs.Warnings.{festival, yearly, first_like};

use rules::Rule;

// How another rule stands to a rule: it is the same; it has its name; and it is another festival; and its date is the same every year.
// An enum and no closure: the laws of `first_like` speak of it, where a closure's would speak of its calls.
#[derive(Clone, Copy)]
pub enum Like {
    Same,
    Named,
    Other,
    Yearly,
}

// Whether two rules are the same in all eight numbers.
fn same(r: Rule, s: Rule) -> bool
    ensures { result ≡ Warnings.same r s }
{
    r == s
}

// Whether a rule is of kind 1 to 3, a festival.
pub fn is_festival(r: Rule) -> bool
    ensures { result ≡ festival r }
{
    (1 <= r.kind) & (r.kind <= 3)
}

// Whether a rule is of kind 1 or 2, with a date that is the same every year.
fn is_yearly(r: Rule) -> bool
    ensures { result ≡ yearly r }
{
    (1 <= r.kind) & (r.kind <= 2)
}

// Whether the rule s stands so to the rule r.
fn stands(how: Like, r: Rule, s: Rule) -> bool
    ensures { result ≡ Warnings.stands how r s }
{
    match how {
        Like::Same => same(r, s),
        Like::Named => r.name == s.name,
        Like::Other => is_festival(s) & (r.name == s.name) & !same(r, s),
        Like::Yearly => is_yearly(s) & (r.name == s.name),
    }
}

// The first of the first n rules that stands so to a rule.
pub fn first_like(rules: &[u16], n: usize, how: Like, r: Rule) -> Option<usize>
    requires { n * 8 ≤ length rules.now }
    ensures { result ≡ first_like how r (rules_from rules.now 0 «n») 0 }
{
    for i in 0..n {
        if stands(how, r, rules::rule_at(rules, i)) {
            return Some(i);
        }
    }
    None
}
