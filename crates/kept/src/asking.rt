// Asking a state for a day's list.
ghost use Rattle.std.specs.Prelude.{◌≡◌, true};
ghost use Rattle.std.specs.Prelude.{Ok};
ghost use Rattle.conversion.specs.Calendar.{to_day, from_day, from_ad};
ghost use Rattle.conversion.specs.Flat.{accepted, flat};
ghost use Rattle.rules.specs.Rules.{accepted_rules};
ghost use Rattle.festivals.specs.Inner.{listed_on, listed_at};
ghost use Rattle.festivals.specs.Answers.{on_bs, on_ad};
ghost use Rattle.kept.specs.State.{drawn};
ghost use Rattle.kept.specs.Operations.{row_first, drawn_on, ask_bs, ask_ad};
ghost use Rattle.kept.specs.Held.{held, Ready, AskedAs};
ghost use Rattle.kept.specs.Inner.{Fresh, DrewDay};

use crate::years::drawn_years;
use crate::{After, Kept, Store, asked, front};
use conversion::{BsDate, Table};
use festivals::list_from;
use gregorian::Date;
use paper::{Answer, Refusal};

// The list of a day of an accepted table, by the stored years where they are there, and the years that it was drawn from.
fn list_day(
    table: Table,
    rows: &[u16],
    rules: &[u16],
    store: Store,
    bs: BsDate,
    number: u32,
    out: &mut [u16],
) -> Answer<(usize, Store)>
    requires rows_value { (accepted table rows.now ≡ true) × (accepted_rules rules.now ≡ true) }
    requires day_value { to_day (flat table rows.now) bs.year bs.month bs.day ≡ Ok number }
    ensures { Fresh (flat table rows.now) rules.now store
        → DrewDay (flat table rows.now) rules.now (drawn (flat table rows.now) bs.year bs.month)
        (listed_on table rows.now rules.now number out.old bs) result out.new }
{
    let years = drawn_years(table, rows, rules, store, bs.year, bs.month);
    let count = list_from(rules, bs, number, years.years, out)?;
    Ok((count, years))
}

// The list of a day by its number, if the accepted table has it.
fn list_placed(
    table: Table,
    rows: &[u16],
    rules: &[u16],
    store: Store,
    number: u32,
    out: &mut [u16],
) -> Answer<(usize, Store)>
    requires { (accepted table rows.now ≡ true) × (accepted_rules rules.now ≡ true) }
    ensures { Fresh (flat table rows.now) rules.now store
        → DrewDay (flat table rows.now) rules.now
        (drawn_on (flat table rows.now) (from_day (flat table rows.now) number))
        (listed_at table rows.now rules.now number out.old) result out.new }
{
    let bs = conversion::place(table, rows, number)?;
    list_day(table, rows, rules, store, bs, number, out)
}

// The list of a BS date. Refusals 13, 1, 2, 4, 5, 6, 9.
fn list_bs(
    table: Table,
    rows: &[u16],
    rules: &[u16],
    store: Store,
    bs: BsDate,
    out: &mut [u16],
) -> Answer<(usize, Store)>
    ensures { Fresh (flat table rows.now) rules.now store
        → DrewDay (flat table rows.now) rules.now (drawn (flat table rows.now) bs.year bs.month)
        (row_first rows.now (on_bs table rows.now rules.now bs.year bs.month bs.day out.old)
        out.old) result out.new }
{
    if rows.is_empty() {
        return Err(Refusal::NoRow);
    }
    rules::accept(table, rows, rules)?;
    let number = conversion::day_of(table, rows, bs)?;
    list_day(table, rows, rules, store, bs, number, out)
}

// The list of a Gregorian date. Refusals 13, 1, 2, 3, 7, 9.
fn list_ad(
    table: Table,
    rows: &[u16],
    rules: &[u16],
    store: Store,
    ad: Date,
    out: &mut [u16],
) -> Answer<(usize, Store)>
    ensures { Fresh (flat table rows.now) rules.now store
        → DrewDay (flat table rows.now) rules.now
        (drawn_on (flat table rows.now) (from_ad (flat table rows.now) ad.year ad.month ad.day))
        (row_first rows.now (on_ad table rows.now rules.now ad.year ad.month ad.day out.old)
        out.old) result out.new }
{
    if rows.is_empty() {
        return Err(Refusal::NoRow);
    }
    rules::accept(table, rows, rules)?;
    let number = ad.day_number()?;
    list_placed(table, rows, rules, store, number, out)
}

// The festivals of a BS date, as name, holiday. Refusals 13, 4, 5, 6, 9.
pub fn ask_bs(state: Kept, year: u16, month: u16, day: u16, out: &mut [u16]) -> After<usize>
    ensures { Ready state → AskedAs result out.new (ask_bs (held state) year month day out.old) }
{
    let drawn = list_bs(
        state.table,
        front(&state.rows, state.row_len),
        front(&state.rules, state.rule_len),
        state.store,
        BsDate { year, month, day },
        out,
    );
    asked(state, drawn)
}

// The festivals of a Gregorian date, as name, holiday. Refusals 13, 3, 7, 9; 7 tells how far outside the table the date lies.
pub fn ask_ad(state: Kept, year: u16, month: u16, day: u16, out: &mut [u16]) -> After<usize>
    ensures { Ready state → AskedAs result out.new (ask_ad (held state) year month day out.old) }
{
    let drawn = list_ad(
        state.table,
        front(&state.rows, state.row_len),
        front(&state.rules, state.rule_len),
        state.store,
        Date { year, month, day },
        out,
    );
    asked(state, drawn)
}
