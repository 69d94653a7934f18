// The page of a year, drawn over one kept state: a lunar year is resolved once, and not for each month.
ghost use Rattle.std.specs.Prelude.{◌≡◌, true, false, []};
ghost use Rattle.conversion.specs.Flat.{accepted};
ghost use Rattle.rules.specs.Rules.{accepted_rules};
ghost use Rattle.kept.specs.Operations.{empty};
ghost use Rattle.kept.specs.Held.{held, Ready, Holds};
ghost use Rattle.patro.specs.Years.{year_page};
ghost use Rattle.patro.specs.Inner.{Draws, DrawsKept, spaced_of, year_of, state_of};

use crate::pages::draw_kept;
use conversion::Table;
use gregorian::Date;
use kept::{After, Kept};
use paper::Answer;

// A state with the rows of an accepted table, appended one after the other.
fn append_rows(state: Kept, rows: &[u16]) -> Kept
    requires { Holds state (state_of state.table [] []) × (accepted state.table rows.now ≡ true) }
    ensures { Holds result (state_of state.table rows.now []) }
{
    let mut kept = state;
    for i in 0..rows.len() / 13 {
        kept = kept::append_row(kept, &rows[13 * i..13 * i + 13]).state;
    }
    kept
}

// The state of an accepted table and accepted rules.
fn state_of(table: Table, rows: &[u16], rules: &[u16]) -> Kept
    requires { (accepted table rows.now ≡ true) × (accepted_rules rules.now ≡ true) }
    ensures { Holds result (state_of table rows.now rules.now) }
{
    let first = kept::start(table).state;
    kept::take_rules(append_rows(first, rows), rules).state
}

// Draws a month behind what was drawn before it, with an empty line between two.
fn draw_next(
    state: Kept,
    today: Date,
    year: u16,
    month: u16,
    names: &[u8],
    page: &mut [u8],
    at: usize,
) -> After<usize>
    requires { Ready state × (empty (held state).rows ≡ false) }
    ensures { DrawsKept (held state) (spaced_of (held state) names.now today year month) page.old at page.new result }
{
    if month == 1 {
        return draw_kept(state, today, year, month, names, page, at);
    }
    let next = text::put(page, at, b"\n");
    draw_kept(state, today, year, month, names, page, next)
}

// Draws the twelve months of a year of a state that holds a row.
fn draw_months(state: Kept, today: Date, year: u16, names: &[u8], page: &mut [u8]) -> Answer<usize>
    requires { Ready state × (empty (held state).rows ≡ false) }
    ensures { Draws (year_of (held state) names.now today year) page.old 0 page.new result }
{
    let mut kept = state;
    let mut at: usize = 0;
    for month in 1..13 {
        let drawn = draw_next(kept, today, year, month, names, page, at);
        at = drawn.answer?;
        kept = drawn.state;
    }
    Ok(at)
}

// Draws the page of a year.
pub fn draw_year(
    year: u16,
    today: Date,
    table: Table,
    rows: &[u16],
    rules: &[u16],
    names: &[u8],
    page: &mut [u8],
) -> Answer<usize>
    ensures { Draws (year_page table rows.now rules.now names.now today year)
        page.old 0 page.new result }
{
    rules::accept(table, rows, rules)?;
    draw_months(state_of(table, rows, rules), today, year, names, page)
}
