// Whether a BS date is a holiday: yes or no, as the month's cell of that date has it.
#![tactic(auto)]

ghost use Rattle.std.specs.Prelude.{◌≡◌, true};
ghost use Rattle.gregorian.specs.Answers.{numbered};
ghost use Rattle.conversion.specs.Flat.{accepted, flat};
ghost use Rattle.rules.specs.Rules.{rules_of, accepted_rules};
ghost use Rattle.festivals.specs.Kathmandu.{day_list_of};
ghost use Rattle.grid.specs.Cells.{any_holiday, holiday_of};
ghost use Rattle.holiday.specs.Holiday.{holiday_on};

use conversion::{BsDate, Table};
use festivals::day_numbered;
use festivals::years::years_for;
use grid::cells::any_holiday;
use paper::Answer;
use rules::lists::put_day_list;

// Whether a holiday is in the list of a day of an accepted table.
fn has_holiday(table: Table, rows: &[u16], rules: &[u16], bs: BsDate, number: u32) -> bool
    requires { (accepted table rows.now ≡ true) × (accepted_rules rules.now ≡ true) × (numbered number ≡ true) }
    ensures { result ≡ any_holiday (day_list_of (flat table rows.now) (rules_of rules.now) bs number) }
{
    let day = day_numbered(bs, number);
    let years = years_for(table, rows, rules, bs.year, bs.month);
    let mut list = [0u16; 768];
    let count = put_day_list(rules, day, years, &mut list, 0);
    any_holiday(&list, 0, count)
}

// Whether a day of an accepted table is a holiday: a Saturday is one, and no lunar year is resolved for it.
fn is_free(table: Table, rows: &[u16], rules: &[u16], bs: BsDate, number: u32) -> bool
    requires { (accepted table rows.now ≡ true) × (accepted_rules rules.now ≡ true) × (numbered number ≡ true) }
    ensures { result ≡ holiday_of number (day_list_of (flat table rows.now) (rules_of rules.now) bs number) }
{
    gregorian::weekday_of(number) == 6 || has_holiday(table, rows, rules, bs, number)
}

// Whether a BS date is a holiday. Refusals 1, 2, 4, 5, 6.
#[tactic(auto, using(crate::proofs::Asked::asked))]
pub fn is_holiday(
    table: Table,
    rows: &[u16],
    rules: &[u16],
    year: u16,
    month: u16,
    day: u16,
) -> Answer<bool>
    ensures { result ≡ holiday_on table rows.now rules.now year month day }
{
    rules::accept(table, rows, rules)?;
    let bs = BsDate { year, month, day };
    let number = conversion::day_of(table, rows, bs)?;
    Ok(is_free(table, rows, rules, bs, number))
}
