// The warnings of a rule, in words.
ghost use Rattle.std.specs.Prelude.{◌≡◌};
ghost use Rattle.std.specs.Option.{option_copied};
ghost use Rattle.conversion.specs.Flat.{flat};
ghost use Rattle.text.specs.Written.{Wrote};
ghost use Rattle.warnings.specs.Words.{line_in, labelled, name_text, date_text, day_text, what_text, warning_text, told_text, warnings_text};

use crate::finding;
use crate::finding::Warning;
use conversion::Table;
use rules::Rule;

// Which of the rule's eight lines is told: its first, that of its day or that of its name.
fn line_in(w: Warning) -> u64
    ensures { result ≡ line_in w }
{
    match w {
        Warning::Twice(_) => 1,
        Warning::Shared(_, _) => 7,
        Warning::NoText(_) => 7,
        Warning::NoDay(_, _) => 4,
        Warning::Beside(_, _) => 7,
    }
}

// Writes a number behind words.
fn put_labelled(out: &mut [u8], at: usize, label: &[u8], n: u16) -> usize
    ensures { Wrote out.old at (labelled label.now «n») out.new result }
{
    let a = text::put(out, at, label);
    text::put_decimal(out, a, n as u64)
}

// Writes which name the rule has.
fn put_name(out: &mut [u8], at: usize, name: u16) -> usize
    ensures { Wrote out.old at (name_text name) out.new result }
{
    let a = put_labelled(out, at, b" has name ", name);
    text::put(out, a, b", which ")
}

// Writes which day of which month the rule gives.
fn put_date(out: &mut [u8], at: usize, rule: Rule) -> usize
    ensures { Wrote out.old at (date_text rule) out.new result }
{
    let a = put_labelled(out, at, b" gives day ", rule.day);
    let b = put_labelled(out, a, b", but month ", rule.month);
    put_labelled(out, b, b" of BS ", rule.year)
}

// Writes which day the rule gives, and how many its month has.
fn put_day(out: &mut [u8], at: usize, rule: Rule, n: u16) -> usize
    ensures { Wrote out.old at (day_text rule «n») out.new result }
{
    let a = put_date(out, at, rule);
    let b = put_labelled(out, a, b" has ", n);
    text::put(
        out,
        b,
        b" days: it shows nothing and still silences its name",
    )
}

// Writes what there is to warn of, behind the rule's number and lines.
fn put_what(out: &mut [u8], at: usize, w: Warning) -> usize
    ensures { Wrote out.old at (what_text w) out.new result }
{
    match w {
        Warning::Twice(i) => {
            let a = text::put(out, at, b" is the same as ");
            faults::put_rule_lines(out, a, i)
        }
        Warning::Shared(name, i) => {
            let a = put_name(out, at, name);
            let b = faults::put_rule_lines(out, a, i);
            text::put(out, b, b", another festival, has too")
        }
        Warning::NoText(name) => {
            let a = put_name(out, at, name);
            text::put(out, a, b"has no text in the file of names")
        }
        Warning::NoDay(rule, n) => put_day(out, at, rule, n),
        Warning::Beside(name, i) => {
            let a = put_name(out, at, name);
            let b = faults::put_rule_lines(out, a, i);
            text::put(out, b, b" has on a fixed date: both show")
        }
    }
}

// Writes the line of a warning of rule number j, from 0 on.
fn put_warning(out: &mut [u8], at: usize, path: &[u8], j: usize, w: Warning) -> usize
    ensures { Wrote out.old at (warning_text path.now j w) out.new result }
{
    let a = text::put(out, at, b"warning: ");
    let b = faults::put_line(out, a, path, faults::line_of(j, line_in(w)));
    let c = faults::put_rule_lines(out, b, j);
    let d = put_what(out, c, w);
    text::put(out, d, b"\n")
}

// Writes the line of a warning, and nothing where there is none.
fn put_told(out: &mut [u8], at: usize, path: &[u8], j: usize, told: Option<Warning>) -> usize
    ensures { Wrote out.old at (told_text path.now j told) out.new result }
{
    match told {
        Some(w) => put_warning(out, at, path, j, w),
        None => at,
    }
}

// Writes the warnings of rule number j of a list, from 0 on, a line each, and answers the place after them; nothing where the list ends before. Without
// names no name lacks its text.
pub fn put_warnings(
    out: &mut [u8],
    at: usize,
    path: &[u8],
    rules: &[u16],
    j: usize,
    names: Option<&[u8]>,
    table: Table,
    rows: &[u16],
) -> usize
    ensures { Wrote out.old at (warnings_text path.now rules.now j (option_copied names.entry)
        (flat table rows.now)) out.new result }
{
    let n = rules.len() / 8;
    if n <= j {
        return at;
    }
    let r = rules::rule_at(rules, j);
    let a = put_told(out, at, path, j, finding::twice(rules, j, r));
    let b = put_told(out, a, path, j, finding::shared(rules, j, r));
    let c = put_told(out, b, path, j, finding::no_text(rules, j, names, r));
    let d = put_told(out, c, path, j, finding::no_day(table, rows, r));
    put_told(out, d, path, j, finding::beside(rules, n, r))
}
