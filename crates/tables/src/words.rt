// What is wrong with a table, in words.
ghost use Rattle.text.specs.Written.{Wrote};
ghost use Rattle.tables.specs.Words.{row_text, month_text, sum_text, cell_text, year_text, first_day_text, day_text, rule_text, fault_text, refusal_text};
ghost use Rattle.tables.specs.Words.{change_text, rows_text, exchanged_text};

use crate::Broken;
use conversion::Table;
use std::num::wrapping_add_u64;

// Writes which row it is, by its number and its year.
fn put_row_name(out: &mut [u8], at: usize, table: Table, i: usize) -> usize
    ensures { Wrote out.old at (row_text table i) out.new result }
{
    let a = text::put(out, at, b"row ");
    let b = text::put_decimal(out, a, wrapping_add_u64(i as u64, 1));
    let c = text::put(out, b, b", BS ");
    text::put_decimal(out, c, wrapping_add_u64(table.first_year as u64, i as u64))
}

// Writes that the month with m before it has so many days, and what is expected.
fn put_month_fault(out: &mut [u8], at: usize, m: usize, days: u64) -> usize
    ensures { Wrote out.old at (month_text m days) out.new result }
{
    let a = text::put(out, at, b": month ");
    let b = text::put_decimal(out, a, wrapping_add_u64(m as u64, 1));
    let c = text::put(out, b, b" has ");
    let d = text::put_decimal(out, c, days);
    text::put(out, d, b" days, expected 29 to 32")
}

// Writes that a row's sum is another.
fn put_sum_fault(out: &mut [u8], at: usize, n: u64) -> usize
    ensures { Wrote out.old at (sum_text n) out.new result }
{
    let a = text::put(out, at, b": the thirteenth number ");
    let b = text::put_decimal(out, a, n);
    text::put(out, b, b" is not the sum of the twelve before it")
}

// Writes that column m of row i has the number n, and what it should be.
fn put_cell_fault(out: &mut [u8], at: usize, table: Table, i: usize, m: usize, n: u16) -> usize
    ensures { Wrote out.old at (cell_text table i m n) out.new result }
{
    let a = put_row_name(out, at, table, i);
    if m < 12 {
        return put_month_fault(out, a, m, n as u64);
    }
    put_sum_fault(out, a, n as u64)
}

// Writes the first year of a table, and what is expected.
fn put_year_fault(out: &mut [u8], at: usize, year: u16) -> usize
    ensures { Wrote out.old at (year_text year) out.new result }
{
    let a = text::put(out, at, b"the first BS year is ");
    let b = text::put_decimal(out, a, year as u64);
    text::put(out, b, b", expected 1 to 3000")
}

// Writes the three numbers of a table's first day.
fn put_first_day(out: &mut [u8], at: usize, table: Table) -> usize
    ensures { Wrote out.old at (first_day_text table) out.new result }
{
    let a = text::put_decimal(out, at, table.year as u64);
    let b = text::put(out, a, b"-");
    let c = text::put_decimal(out, b, table.month as u64);
    let d = text::put(out, c, b"-");
    text::put_decimal(out, d, table.day as u64)
}

// Writes a table's first day, and what is wrong with it.
fn put_day_fault(out: &mut [u8], at: usize, table: Table, wrong: &[u8]) -> usize
    ensures { Wrote out.old at (day_text table wrong.now) out.new result }
{
    let a = text::put(out, at, b"the first day ");
    let b = put_first_day(out, a, table);
    text::put(out, b, wrong)
}

// Writes the first rule that a table breaks.
fn put_rule_broken(out: &mut [u8], at: usize, table: Table, b: Broken) -> usize
    ensures { Wrote out.old at (rule_text table b) out.new result }
{
    match b {
        Broken::FirstYear => put_year_fault(out, at, table.first_year),
        Broken::NoRow => text::put(out, at, b"there is no row"),
        Broken::ManyRows => text::put(out, at, b"there are more than 128 rows"),
        Broken::NoDate => put_day_fault(out, at, table, b" is no Gregorian date"),
        Broken::FirstDay => put_day_fault(out, at, table, b" is before 1901-01-01"),
        Broken::Cell(i, m, n) => put_cell_fault(out, at, table, i, m, n),
        Broken::LastDay => text::put(out, at, b"the last day is after 2099-12-31"),
    }
}

// Writes why a table is refused: the first rule that it breaks, or else that its numbers are no rows.
fn put_fault(out: &mut [u8], at: usize, table: Table, b: Option<Broken>) -> usize
    ensures { Wrote out.old at (fault_text table b) out.new result }
{
    match b {
        Some(rule) => put_rule_broken(out, at, table, rule),
        None => text::put(out, at, b"its numbers are no whole rows"),
    }
}

// Writes the refusal of a table behind what names it, with the first rule that it breaks, and answers the place after it.
pub fn put_refusal(out: &mut [u8], at: usize, table: Table, b: Option<Broken>) -> usize
    ensures { Wrote out.old at (refusal_text table b) out.new result }
{
    let c = text::put(out, at, b": refused with 1: ");
    let d = put_fault(out, c, table, b);
    text::put(out, d, b"\n")
}

// Writes the first row that NEW has not as OLD has it, and answers the place after it.
pub fn put_change_line(out: &mut [u8], at: usize, table: Table, i: usize) -> usize
    ensures { Wrote out.old at (change_text table i) out.new result }
{
    let a = text::put(out, at, b"NEW: not OLD with rows added: ");
    let b = put_row_name(out, a, table, i);
    text::put(out, b, b" is another or missing\n")
}

// Writes that NEW has only the first rows of OLD, so many of so many.
fn put_rows_shared(out: &mut [u8], at: usize, few: usize, all: usize) -> usize
    ensures { Wrote out.old at (rows_text few all) out.new result }
{
    let a = text::put(out, at, b"NEW: only the first ");
    let b = text::put_decimal(out, a, few as u64);
    let c = text::put(out, b, b" of the ");
    let d = text::put_decimal(out, c, all as u64);
    text::put(out, d, b" rows of OLD: the two files look exchanged; run ")
}

// Writes that, and the command with the two files exchanged, and answers the place after it.
pub fn put_exchanged_line(
    out: &mut [u8],
    at: usize,
    few: usize,
    all: usize,
    old: &[u8],
    new: &[u8],
) -> usize
    ensures { Wrote out.old at (exchanged_text few all old.now new.now) out.new result }
{
    let a = put_rows_shared(out, at, few, all);
    let b = text::put(out, a, b"./patro spring ");
    let c = text::put(out, b, new);
    let d = text::put(out, c, b" ");
    let e = text::put(out, d, old);
    text::put(out, e, b"\n")
}
