// Which new moons of BS years to check against the gazette: those near the beginning of a solar month.
#![tactic(auto)]

ghost use Rattle.std.specs.Prelude.{◌≡◌, true};
ghost use Rattle.conversion.specs.Flat.{accepted, flat};
ghost use Rattle.rules.specs.Rules.{rules_of};
ghost use Rattle.output.specs.Gathered.{gathered};
ghost use Rattle.output.specs.Pieces.{Puts};
ghost use Rattle.doubtful.specs.Tallies.{first_page};
ghost use Rattle.doubtful.specs.Years.{sheet};
ghost use Rattle.doubt.specs.Range.{range_pieces, asked_page};

use conversion::Table;
use output::{Out, STDERR};
use std::rt::{Env, Files};

// One line on standard error.
fn complain(line: &[u8]) {
    io::write_all(STDERR, line);
}

// Which years were asked.
fn put_asked_years(o: Out, out: &mut [u8], first: u16, last: u16) -> Out
    ensures { Puts out.old o (range_pieces first last) out.new result }
{
    let a = output::put_labelled(o, out, b"BS ", first as u64);
    let b = output::put_labelled(a, out, b" to ", last as u64);
    output::put_text(b, out, b": ")
}

// The page over an accepted table.
fn put_asked_page(
    table: Table,
    rows: &[u16],
    first: u16,
    last: u16,
    rules: &[u16],
    names: &[u8],
    out: &mut [u8],
) -> Out
    requires { accepted table rows.now ≡ true }
    ensures { gathered out.new result ≡ asked_page (flat table rows.now) (rules_of rules.now)
        names.now first last (sheet out.old first_page) }
{
    let p = doubtful::put_years(
        doubtful::begin(),
        out,
        table,
        rows,
        first,
        last,
        rules,
        names,
    );
    let o = p.out;
    let q = put_asked_years(o, out, first, last);
    doubtful::put_counts(p, q, out)
}

// Tests the rules and the years, and writes the page or one line on standard error. Where the rules are refused, that was said as they were read.
fn answer_over(
    table: Table,
    rows: &[u16],
    first: u16,
    last: u16,
    rules: &[u16],
    names: &[u8],
    out: &mut [u8],
)
    requires { accepted table rows.now ≡ true }
{
    if !rules::accepts_rules(rules) {
        return;
    }
    if last < first {
        complain(b"LAST: expected a year not before FIRST\n");
        return;
    }
    if !conversion::is_year(table, rows, first) {
        complain(b"FIRST: expected a BS year of the table\n");
        return;
    }
    if !conversion::is_year(table, rows, last) {
        complain(b"LAST: expected a BS year of the table\n");
        return;
    }
    let o = put_asked_page(table, rows, first, last, rules, names, out);
    o.finish(out);
}

// Tests the table first, in the same way.
fn answer(
    table: Table,
    rows: &[u16],
    first: u16,
    last: u16,
    rules: &[u16],
    names: &[u8],
    out: &mut [u8],
) {
    if conversion::accepts(table, rows) {
        answer_over(table, rows, first, last, rules, names, out);
    }
}

// The number that argument i is; a longer one than a buffer of eight bytes holds is none.
fn year_in<R: Env>(rt: &R, i: usize) -> Option<u16> {
    let mut buffer = [0u8; 8];
    let n = files::argument(rt, i, &mut buffer);
    text::whole_number(&buffer[..n], 65535)
}

// Reads what the arguments name, and answers over the parts of the lent buffers that were read.
#[tactic(auto, using(files::proofs::Fits::table_fits, files::proofs::Fits::table_taken, files::proofs::Whole::rules_fits, files::proofs::Whole::rules_taken))]
fn run<R: Env + Files>(
    rt: &R,
    rows: &mut [u16],
    rules: &mut [u16],
    names: &mut [u8],
    out: &mut [u8],
) {
    let count = files::argument_count(rt);
    if (count < 4) | (6 < count) {
        complain(b"expected arguments: TABLE FIRST LAST [RULES [NAMES]]\n");
        return;
    }
    let Some(first) = year_in(rt, 2) else {
        complain(b"FIRST: expected a number up to 65535\n");
        return;
    };
    let Some(last) = year_in(rt, 3) else {
        complain(b"LAST: expected a number up to 65535\n");
        return;
    };
    let Ok((table, n)) = files::table_at(rt, 1, rows) else {
        return;
    };
    let Ok(k) = files::rules_asked(rt, 4, count, rules) else {
        return;
    };
    let Some(m) = files::names_asked(rt, 5, count, names) else {
        return;
    };
    answer(
        table,
        &rows[..n],
        first,
        last,
        &rules[..k],
        &names[..m],
        out,
    );
}

fn main(rt: HostRuntime) {
    let mut rows = [0u16; 1677];
    let mut rules = [0u16; 2600];
    let mut names = [0u8; 65536];
    let mut out = [0u8; 8192];
    run(&rt, &mut rows, &mut rules, &mut names, &mut out);
}
