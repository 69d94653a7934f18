// Months: stepping from one to another, and the cells of one laid out in weeks.
#![tactic(auto)]

pub mod cells;
pub mod page;
pub mod plan;
mod step;

ghost use Rattle.std.specs.Prelude.{◌≡◌, true};
ghost use Rattle.conversion.specs.Flat.{accepted, flat};
ghost use Rattle.rules.specs.Rules.{accepted_rules};
ghost use Rattle.grid.specs.Kathmandu.{month_shown};
ghost use Rattle.grid.specs.Inner.{month_laid};
ghost use Rattle.grid.specs.Step.{step_month};

use crate::page::write_month;
use crate::plan::plan_of;
use crate::step::{absolute_month, month_at};
use conversion::{Table, accepts};
use festivals::years::years_for;
use gregorian::Date;
use paper::{Answer, Refusal};

#[derive(Clone, Copy)]
pub struct BsMonth {
    pub year: u16,
    pub month: u8,
}

// A month's days, its first and last Gregorian date, and how many cells and festivals were written.
#[derive(Clone, Copy)]
pub struct Month {
    pub days: u16,
    pub first: Date,
    pub last: Date,
    pub cells: usize,
    pub festivals: usize,
}

// A month stepped by a number of months, worked exactly: month 0 and months past 12 are stepped too.
pub fn step_month(table: Table, rows: &[u16], year: u16, month: u8, step: i32) -> Answer<BsMonth>
    ensures { result ≡ step_month (flat table rows.now) year month step }
{
    if !accepts(table, rows) {
        return Err(Refusal::BadTable);
    }
    let years = conversion::year_count(rows) as u16;
    month_at(table.first_year, years, absolute_month(year, month, step))
}

// A month of what was accepted, in the two lent buffers. Refusals 4, 5, 9.
fn lay_month(
    table: Table,
    rows: &[u16],
    rules: &[u16],
    today: Date,
    year: u16,
    month: u16,
    cells: &mut [u16],
    festivals: &mut [u16],
) -> Answer<Month>
    requires { (accepted table rows.now ≡ true) × (accepted_rules rules.now ≡ true) }
    ensures result_value { result
        ≡ (month_laid table rows.now rules.now today year month cells.old festivals.old).answer }
    ensures cells_after { cells.new
        ≡ (month_laid table rows.now rules.now today year month cells.old festivals.old).cells }
    ensures festivals_after { festivals.new
        ≡ (month_laid table rows.now rules.now today year month cells.old festivals.old).festivals }
{
    let days = conversion::month_days(table, rows, year, month)?;
    let years = years_for(table, rows, rules, year, month);
    let plan = plan_of(table, rows, today, year, month, days, years);
    write_month(rules, plan, cells, festivals)
}

// The month in cells of twelve numbers, in weeks from Sunday, and its days' festivals as name, holiday. Refusals 1, 2, 3 (today), 4, 5, 9.
pub fn month_grid(
    table: Table,
    rows: &[u16],
    rules: &[u16],
    today: Date,
    year: u16,
    month: u16,
    cells: &mut [u16],
    festivals: &mut [u16],
) -> Answer<Month>
    ensures result_value { result
        ≡ (month_shown table rows.now rules.now today year month cells.old festivals.old).answer }
    ensures cells_after { cells.new
        ≡ (month_shown table rows.now rules.now today year month cells.old festivals.old).cells }
    ensures festivals_after { festivals.new
        ≡ (month_shown table rows.now rules.now today year month cells.old festivals.old).festivals }
{
    rules::accept(table, rows, rules)?;
    today.day_number()?;
    lay_month(table, rows, rules, today, year, month, cells, festivals)
}
