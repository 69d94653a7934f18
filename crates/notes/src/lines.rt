// Notes on a new moon beside the beginning of a solar month, line by line: when it is, what it opens, and the rules that hang on it.
ghost use Rattle.std.specs.Prelude.{◌≡◌, false, ◌||◌, [], ◌∷◌, ◌+◌, ◌*◌, ◌≤◌, length};
ghost use Rattle.wall.specs.Names.{name_text};
ghost use Rattle.rules.specs.Rules.{rule_at, rules_of};
ghost use Rattle.output.specs.Pieces.{Puts};
ghost use Rattle.notes.specs.Lines.{month_before, month_after, earlier_of, later_of, moment_pieces, where_pieces, opening_pieces, none_pieces};
ghost use Rattle.notes.specs.Lines.{is_of, end_of, rule_pieces, item_pieces, list_pieces, rules_pieces, beside_pieces};

use conversion::BsDate;
use gregorian::UtDay;
use output::Out;
use panchanga::clock;

// The text of a name.
fn put_rule_name(o: Out, out: &mut [u8], name: u16, names: &[u8]) -> Out
    ensures { Puts out.old o (name_text name names.now ∷ []) out.new result }
{
    let r = o.room(out, 128);
    Out {
        at: wall::put_festival_name(out, r.at, name, names),
        begun: false,
        failed: r.failed,
    }
}

// One rule more of a list, on a line of its own: its name as a number and as text.
fn put_rule_line(o: Out, out: &mut [u8], name: u16, names: &[u8]) -> Out
    ensures { Puts out.old o (rule_pieces name (name_text name names.now)) out.new result }
{
    let a = output::put_labelled(o, out, b"\n      ", name as u64);
    let b = output::put_text(a, out, b" ");
    put_rule_name(b, out, name, names)
}

// What is written, and whether a rule stands there.
#[derive(Clone, Copy)]
struct Listed {
    out: Out,
    some: bool,
}

// Rule i, if it is a computed one of the lunar month.
fn put_if_of_month(
    l: Listed,
    out: &mut [u8],
    month: u16,
    rules: &[u16],
    names: &[u8],
    i: usize,
) -> Listed
    requires { i * 8 + 8 ≤ length rules.now }
    ensures puts { Puts out.old l.out (item_pieces names.now month (rule_at rules.now i)) out.new result.out }
    ensures some_value { result.some ≡ (l.some || is_of month (rule_at rules.now i)) }
{
    let r = rules::rule_at(rules, i);
    let o = l.out;
    if (r.kind != 3) | (r.month != month) {
        return l;
    }
    Listed {
        out: put_rule_line(o, out, r.name, names),
        some: true,
    }
}

// The end of a list of rules.
#[tactic(auto, unfolding(crate::specs::Lines::end_of))]
fn put_rules_end(l: Listed, out: &mut [u8]) -> Out
    ensures { Puts out.old l.out (end_of l.some ∷ []) out.new result }
{
    let o = l.out;
    output::put_either(o, out, l.some, b"\n", b" none\n")
}

// The computed rules of a lunar month, each on its line; or none.
fn put_rule_lines(o: Out, out: &mut [u8], month: u16, rules: &[u16], names: &[u8]) -> Out
    ensures { Puts out.old o (list_pieces names.now month false (rules_of rules.now)) out.new result }
{
    let mut l = Listed {
        out: o,
        some: false,
    };
    let n = rules.len() / 8;
    for i in 0..n {
        l = put_if_of_month(l, out, month, rules, names, i);
    }
    put_rules_end(l, out)
}

// A lunar month and its rules.
pub fn put_month_rules(o: Out, out: &mut [u8], month: u16, rules: &[u16], names: &[u8]) -> Out
    ensures { Puts out.old o (rules_pieces (rules_of rules.now) names.now month) out.new result }
{
    let a = output::put_labelled(o, out, b"    rules of lunar month ", month as u64);
    let b = output::put_text(a, out, b":");
    put_rule_lines(b, out, month, rules, names)
}

// The month before; 12 before 1.
#[tactic(auto, unfolding(crate::specs::Lines::month_before))]
fn month_before(m: u16) -> u16
    ensures { result ≡ month_before m }
{
    if m <= 1 { 12 } else { m - 1 }
}

// The month after; 1 after 12.
#[tactic(auto, unfolding(crate::specs::Lines::month_after))]
fn month_after(m: u16) -> u16
    ensures { result ≡ month_after m }
{
    if 12 <= m { 1 } else { m + 1 }
}

// The earlier of the two months that meet at the beginning of month m, or else at its end.
#[tactic(auto, unfolding(crate::specs::Lines::earlier_of))]
fn earlier(beginning: bool, m: u16) -> u16
    ensures { result ≡ earlier_of beginning m }
{
    if beginning { month_before(m) } else { m }
}

// The later of the two.
#[tactic(auto, unfolding(crate::specs::Lines::later_of))]
fn later(beginning: bool, m: u16) -> u16
    ensures { result ≡ later_of beginning m }
{
    if beginning { m } else { month_after(m) }
}

// The Nepal date and time of a new moon.
pub fn put_moment(o: Out, out: &mut [u8], x: UtDay, n: u32) -> Out
    ensures { Puts out.old o (moment_pieces x.0 «n») out.new result }
{
    let a = output::put_text(o, out, b"  new moon ");
    let b = output::put_date(a, out, n);
    let c = output::put_text(b, out, b" ");
    output::put_clock(c, out, clock::clock_of(x.0))
}

// What a new moon opens by the engine's rule, on a line of its own.
pub fn put_opening(o: Out, out: &mut [u8], date: BsDate, opens: bool) -> Out
    ensures { Puts out.old o (opening_pieces date opens) out.new result }
{
    if opens {
        let a = output::put_labelled(o, out, b"\n    opens lunar month ", date.month as u64);
        return output::put_text(a, out, b"\n");
    }
    let a = output::put_text(o, out, b"\n    opens nothing: another follows in ");
    let b = output::put_year_month(a, out, date.year, date.month);
    output::put_text(b, out, b"\n")
}

// So many minutes after a month's beginning, or else before its end.
fn put_where(o: Out, out: &mut [u8], date: BsDate, after: bool, minutes: u32) -> Out
    ensures { Puts out.old o (where_pieces date after minutes) out.new result }
{
    let a = output::put_text(o, out, b", ");
    let b = output::put_span(a, out, minutes);
    let c = output::put_either(
        b,
        out,
        after,
        b" after the beginning of ",
        b" before the end of ",
    );
    output::put_year_month(c, out, date.year, date.month)
}

// A new moon after a month's beginning, or else before its end: by how much, what it opens, and the rules of the two months that meet there.
pub fn put_beside(
    o: Out,
    out: &mut [u8],
    date: BsDate,
    opens: bool,
    after: bool,
    minutes: u32,
    rules: &[u16],
    names: &[u8],
) -> Out
    ensures { Puts out.old o (beside_pieces (rules_of rules.now) names.now date opens after minutes)
        out.new result }
{
    let a = put_where(o, out, date, after, minutes);
    let b = put_opening(a, out, date, opens);
    let c = put_month_rules(b, out, earlier(after, date.month), rules, names);
    put_month_rules(c, out, later(after, date.month), rules, names)
}

// The line of a solar month without a new moon.
pub fn put_no_moon(o: Out, out: &mut [u8], year: u16, month: u16) -> Out
    ensures { Puts out.old o (none_pieces year month) out.new result }
{
    let a = output::put_text(o, out, b"  no new moon in ");
    let b = output::put_year_month(a, out, year, month);
    let c = output::put_labelled(b, out, b": nothing opens lunar month ", month as u64);
    output::put_text(c, out, b"\n")
}
