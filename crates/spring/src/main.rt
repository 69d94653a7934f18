// Appends a year's row without fear: what a longer year table adds, what it cannot change, and which of its new moons are doubtful.
#![tactic(auto)]

ghost use Rattle.std.specs.Prelude.{◌≡◌, true, ◌≤◌, length};
ghost use Rattle.conversion.specs.Flat.{accepted};
ghost use Rattle.growth.specs.Growth.{same_first, Grown};

use conversion::Table;
use output::STDERR;
use std::rt::{Env, Files};

// The first row that NEW has not as OLD has it, on standard error.
fn report_change(table: Table, i: usize) {
    let mut line = [0u8; 256];
    let n = tables::put_change_line(&mut line, 0, table, i);
    io::write_all(STDERR, &line[..n]);
}

// That NEW has only the first rows of OLD, so many of so many, on standard error, with the command that has them in their order.
fn report_exchanged<R: Env>(rt: &R, few: usize, all: usize) {
    let mut old = [0u8; 4096];
    let mut new = [0u8; 4096];
    let mut line = [0u8; 8448];
    let n = files::argument(rt, 1, &mut old);
    let m = files::argument(rt, 2, &mut new);
    let end = tables::put_exchanged_line(&mut line, 0, few, all, &old[..n], &new[..m]);
    io::write_all(STDERR, &line[..end]);
}

// The row of a table in which number n stands.
fn row_at(rows: &[u16], n: usize) -> usize
    requires { n ≤ length rows.now }
{
    conversion::year_count(&rows[..n])
}

// The page on a table and the same with more rows, on standard output.
fn write_page(
    table: Table,
    old: &[u16],
    new_table: Table,
    new: &[u16],
    rules: &[u16],
    names: &[u8],
    out: &mut [u8],
)
    requires { ((accepted table old.now ≡ true) × (accepted new_table new.now ≡ true)) × Grown table old.now new_table new.now }
{
    let p = doubtful::begin();
    let o = p.out;
    let a = growth::put_growth(o, out, table, old, new_table, new, rules, names);
    a.finish(out);
}

// Says that NEW, which has n numbers as OLD has them, is not OLD with rows added: it may be the shorter of the two.
fn report_other<R: Env>(rt: &R, table: Table, old: &[u16], new: &[u16], n: usize)
    requires { n ≤ length old.now }
{
    if n == new.len() {
        report_exchanged(rt, conversion::year_count(new), conversion::year_count(old));
        return;
    }
    report_change(table, row_at(old, n));
}

// Tests whether NEW is OLD with rows added, and writes the page or one line on standard error. Where the rules are refused, that was said as they
// were read.
fn answer_both<R: Env>(
    rt: &R,
    table: Table,
    old: &[u16],
    new_table: Table,
    new: &[u16],
    rules: &[u16],
    names: &[u8],
    out: &mut [u8],
)
    requires { ((accepted table old.now ≡ true) × (accepted new_table new.now ≡ true)) × (same_first table new_table ≡ true) }
{
    let n = tables::shared(old, new);
    if n < old.len() {
        report_other(rt, table, old, new, n);
        return;
    }
    if rules::accepts_rules(rules) {
        write_page(table, old, new_table, new, rules, names, out);
    }
}

// Tests NEW. Where it is refused, that was said as it was read.
fn answer_new<R: Env>(
    rt: &R,
    table: Table,
    old: &[u16],
    new_table: Table,
    new: &[u16],
    rules: &[u16],
    names: &[u8],
    out: &mut [u8],
)
    requires { accepted table old.now ≡ true }
{
    if !growth::same_first(table, new_table) {
        io::write_all(
            STDERR,
            b"NEW: not OLD with rows added: its first line is another\n",
        );
        return;
    }
    if conversion::accepts(new_table, new) {
        answer_both(rt, table, old, new_table, new, rules, names, out);
    }
}

// Tests OLD first, in the same way.
fn answer<R: Env>(
    rt: &R,
    table: Table,
    old: &[u16],
    new_table: Table,
    new: &[u16],
    rules: &[u16],
    names: &[u8],
    out: &mut [u8],
) {
    if conversion::accepts(table, old) {
        answer_new(rt, table, old, new_table, new, rules, names, out);
    }
}

// Reads the rules and the names that are asked, and answers over them and two tables.
#[tactic(auto, using(files::proofs::Whole::rules_fits, files::proofs::Whole::rules_taken))]
fn answer_with<R: Env + Files>(
    rt: &R,
    table: Table,
    old: &[u16],
    new_table: Table,
    new: &[u16],
    count: usize,
    rules: &mut [u16],
    names: &mut [u8],
    out: &mut [u8],
) {
    let Ok(k) = files::rules_asked(rt, 3, count, rules) else {
        return;
    };
    let Some(m) = files::names_asked(rt, 4, count, names) else {
        return;
    };
    answer(
        rt,
        table,
        old,
        new_table,
        new,
        &rules[..k],
        &names[..m],
        out,
    );
}

// Reads the tables that the arguments name, and answers over the parts of the lent buffers that were read.
#[tactic(auto, using(files::proofs::Fits::table_fits, files::proofs::Fits::table_taken))]
fn run<R: Env + Files>(
    rt: &R,
    old: &mut [u16],
    new: &mut [u16],
    rules: &mut [u16],
    names: &mut [u8],
    out: &mut [u8],
) {
    let count = files::argument_count(rt);
    if (count < 3) | (5 < count) {
        io::write_all(STDERR, b"expected arguments: OLD NEW [RULES [NAMES]]\n");
        return;
    }
    let Ok((table, n)) = files::table_at(rt, 1, old) else {
        return;
    };
    let Ok((new_table, m)) = files::table_at(rt, 2, new) else {
        return;
    };
    answer_with(
        rt,
        table,
        &old[..n],
        new_table,
        &new[..m],
        count,
        rules,
        names,
        out,
    );
}

fn main(rt: HostRuntime) {
    let mut old = [0u16; 1677];
    let mut new = [0u16; 1677];
    let mut rules = [0u16; 2600];
    let mut names = [0u8; 65536];
    let mut out = [0u8; 8192];
    run(&rt, &mut old, &mut new, &mut rules, &mut names, &mut out);
}
