// Says how many rules of each kind a rule file has, and warns of what the clerk may not have meant: clerk RULES TABLE NAMES. What is wrong with a file is told
// as it is read.
#![tactic(auto)]

ghost use Rattle.std.specs.Prelude.{◌≡◌};
ghost use Rattle.text.specs.Written.{Wrote};
ghost use Rattle.rules.specs.Rules.{rules_of, count_kind};
ghost use Rattle.clerk.specs.Counts.{count_text, counts_text};

use conversion::Table;
use output::{STDERR, STDOUT};
use std::rt::{Env, Files};

// How many rules of the list have the kind k.
fn count_kind(rules: &[u16], k: u16) -> usize
    ensures { result ≡ count_kind k (rules_of rules.now) }
{
    let mut count = 0;
    for i in 0..rules.len() / 8 {
        if rules::rule_at(rules, i).kind == k {
            count += 1;
        }
    }
    count
}

// Writes what a kind is and how many rules of it there are.
fn put_count(out: &mut [u8], at: usize, label: &[u8], rules: &[u16], k: u16) -> usize
    ensures { Wrote out.old at (count_text label.now k (rules_of rules.now)) out.new result }
{
    let a = text::put(out, at, label);
    let b = text::put_decimal(out, a, count_kind(rules, k) as u64);
    text::put(out, b, b"\n")
}

// Writes how many rules of each kind there are, a line for each.
fn put_counts(out: &mut [u8], at: usize, rules: &[u16]) -> usize
    ensures { Wrote out.old at (counts_text (rules_of rules.now)) out.new result }
{
    let a = put_count(out, at, b"kind 1, fixed BS date: ", rules, 1);
    let b = put_count(out, a, b"kind 2, fixed Gregorian date: ", rules, 2);
    let c = put_count(out, b, b"kind 3, computed: ", rules, 3);
    put_count(out, c, b"kind 4, given for one BS year: ", rules, 4)
}

// Writes the counts to standard output.
#[tactic(auto, using(files::proofs::Fits::front_taken))]
fn show(rules: &[u16]) {
    let mut out = [0u8; 256];
    let n = put_counts(&mut out, 0, rules);
    if !io::write_all(STDOUT, &out[..n]) {
        io::write_all(STDERR, b"clerk: standard output could not be written\n");
    }
}

// Writes the warnings of rule number j, from 0 on, to standard error.
fn warn_of<R: Env>(
    rt: &R,
    rules: &[u16],
    j: usize,
    names: Option<&[u8]>,
    table: Table,
    rows: &[u16],
) {
    let mut path = [0u8; 4096];
    let mut out = [0u8; 24576];
    let p = files::argument(rt, 1, &mut path);
    let n = warnings::put_warnings(&mut out, 0, &path[..p], rules, j, names, table, rows);
    io::write_all(STDERR, &out[..n]);
}

// Writes the warnings of all rules, in their order.
fn warn<R: Env>(rt: &R, rules: &[u16], names: Option<&[u8]>, table: Table, rows: &[u16]) {
    for j in 0..rules.len() / 8 {
        warn_of(rt, rules, j, names, table, rows);
    }
}

// Warns by the names in the third file, where they can be read.
fn warn_with<R: Env + Files>(rt: &R, rules: &[u16], names: &mut [u8], table: Table, rows: &[u16]) {
    match files::names_at(rt, 3, names) {
        Some(m) => warn(rt, rules, Some(&names[..m]), table, rows),
        None => warn(rt, rules, None, table, rows),
    }
}

// Warns by the table in the second file. One that cannot be read has no year.
#[tactic(auto, using(files::proofs::Fits::table_fits, files::proofs::Fits::table_taken))]
fn warn_by<R: Env + Files>(rt: &R, rules: &[u16], rows: &mut [u16], names: &mut [u8]) {
    match files::table_at(rt, 2, rows) {
        Ok((table, n)) => warn_with(rt, rules, names, table, &rows[..n]),
        Err(_) => {
            let table = Table {
                first_year: 0,
                year: 0,
                month: 0,
                day: 0,
            };
            warn_with(rt, rules, names, table, &rows[..0]);
        }
    }
}

// Reads the rules, shows their counts and warns.
#[tactic(auto, using(files::proofs::Whole::rules_fits, files::proofs::Whole::rules_taken))]
fn run<R: Env + Files>(rt: &R, rules: &mut [u16], rows: &mut [u16], names: &mut [u8]) {
    if files::argument_count(rt) != 4 {
        io::write_all(STDERR, b"expected arguments: RULES TABLE NAMES\n");
        return;
    }
    let Ok(k) = files::rules_at(rt, 1, rules) else {
        return;
    };
    show(&rules[..k]);
    warn_by(rt, &rules[..k], rows, names);
}

fn main(rt: HostRuntime) {
    let mut rules = [0u16; 2600];
    let mut rows = [0u16; 1677];
    let mut names = [0u8; 65536];
    run(&rt, &mut rules, &mut rows, &mut names);
}
