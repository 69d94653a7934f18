// Asking a state for a month.
ghost use Rattle.std.specs.Prelude.{◌≡◌, true};
ghost use Rattle.std.specs.Prelude.{Ok};
ghost use Rattle.conversion.specs.Calendar.{month_len};
ghost use Rattle.conversion.specs.Flat.{accepted, flat};
ghost use Rattle.rules.specs.Rules.{accepted_rules};
ghost use Rattle.grid.specs.Kathmandu.{month_shown};
ghost use Rattle.grid.specs.Inner.{month_laid};
ghost use Rattle.kept.specs.State.{drawn};
ghost use Rattle.kept.specs.Operations.{row_first_month, ask_month};
ghost use Rattle.kept.specs.Held.{held, Ready, MonthAs};
ghost use Rattle.kept.specs.Inner.{Fresh, DrewMonth};

use crate::years::drawn_years;
use crate::{After, Kept, Store, asked, front};
use conversion::Table;
use gregorian::Date;
use grid::Month;
use grid::page::write_month;
use grid::plan::plan_of;
use paper::{Answer, Refusal};

// A month of so many days of an accepted table, by the stored years where they are there, and the years that it was drawn from.
fn show_days(
    table: Table,
    rows: &[u16],
    rules: &[u16],
    store: Store,
    today: Date,
    year: u16,
    month: u16,
    days: u16,
    cells: &mut [u16],
    festivals: &mut [u16],
) -> Answer<(Month, Store)>
    requires rows_value { (accepted table rows.now ≡ true) × (accepted_rules rules.now ≡ true) }
    requires days_value { Ok days ≡ month_len (flat table rows.now) year month }
    ensures { Fresh (flat table rows.now) rules.now store
        → DrewMonth (flat table rows.now) rules.now (drawn (flat table rows.now) year month)
        (month_laid table rows.now rules.now today year month cells.old festivals.old)
        result cells.new festivals.new }
{
    let years = drawn_years(table, rows, rules, store, year, month);
    let plan = plan_of(table, rows, today, year, month, days, years.years);
    let shown = write_month(rules, plan, cells, festivals)?;
    Ok((shown, years))
}

// A month of what was accepted. Refusals 4, 5, 9.
fn show_laid(
    table: Table,
    rows: &[u16],
    rules: &[u16],
    store: Store,
    today: Date,
    year: u16,
    month: u16,
    cells: &mut [u16],
    festivals: &mut [u16],
) -> Answer<(Month, Store)>
    requires { (accepted table rows.now ≡ true) × (accepted_rules rules.now ≡ true) }
    ensures { Fresh (flat table rows.now) rules.now store
        → DrewMonth (flat table rows.now) rules.now (drawn (flat table rows.now) year month)
        (month_laid table rows.now rules.now today year month cells.old festivals.old)
        result cells.new festivals.new }
{
    let days = conversion::month_days(table, rows, year, month)?;
    show_days(
        table, rows, rules, store, today, year, month, days, cells, festivals,
    )
}

// A month. Refusals 13, 1, 2, 3 (today), 4, 5, 9.
fn show_month(
    table: Table,
    rows: &[u16],
    rules: &[u16],
    store: Store,
    today: Date,
    year: u16,
    month: u16,
    cells: &mut [u16],
    festivals: &mut [u16],
) -> Answer<(Month, Store)>
    ensures { Fresh (flat table rows.now) rules.now store
        → DrewMonth (flat table rows.now) rules.now (drawn (flat table rows.now) year month)
        (row_first_month rows.now
        (month_shown table rows.now rules.now today year month cells.old festivals.old)
        cells.old festivals.old) result cells.new festivals.new }
{
    if rows.is_empty() {
        return Err(Refusal::NoRow);
    }
    rules::accept(table, rows, rules)?;
    today.day_number()?;
    show_laid(
        table, rows, rules, store, today, year, month, cells, festivals,
    )
}

// The month in cells of twelve numbers, in weeks from Sunday, and its days' festivals as name, holiday. Refusals 13, 3 (today), 4, 5, 9.
pub fn ask_month(
    state: Kept,
    today: Date,
    year: u16,
    month: u16,
    cells: &mut [u16],
    festivals: &mut [u16],
) -> After<Month>
    ensures { Ready state → MonthAs result cells.new festivals.new
        (ask_month (held state) today year month cells.old festivals.old) }
{
    let drawn = show_month(
        state.table,
        front(&state.rows, state.row_len),
        front(&state.rules, state.rule_len),
        state.store,
        today,
        year,
        month,
        cells,
        festivals,
    );
    asked(state, drawn)
}
