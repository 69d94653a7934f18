// The festivals of a day over Kathmandu, asked by BS date or by Gregorian date.
#![tactic(auto)]

pub mod days;
pub mod months;
pub mod years;

ghost use Rattle.std.specs.Prelude.{◌≡◌, true};
ghost use Rattle.gregorian.specs.Answers.{numbered};
ghost use Rattle.conversion.specs.Flat.{accepted};
ghost use Rattle.rules.specs.Rules.{accepted_rules};
ghost use Rattle.rules.specs.Resolved.{day_numbered};
ghost use Rattle.festivals.specs.Inner.{listed_from, listed_on, listed_at};
ghost use Rattle.festivals.specs.Answers.{on_bs, on_ad};

use conversion::{BsDate, Table};
use gregorian::Date;
use paper::{Answer, Refusal};
use rules::lists;
use rules::lists::{Day, Years};

// A day with its BS date and its number, which is a date's.
pub fn day_numbered(bs: BsDate, number: u32) -> Day
    requires { numbered number ≡ true }
    ensures { result ≡ day_numbered bs number }
{
    let ad = Date::from_day_number(number).unwrap();
    Day { bs, ad, number }
}

// A day's list from the two resolved years of its month: counted first, so that a buffer that is too short stays as it is.
pub fn list_from(
    rules: &[u16],
    bs: BsDate,
    number: u32,
    years: Years,
    out: &mut [u16],
) -> Answer<usize>
    requires { (accepted_rules rules.now ≡ true) × (numbered number ≡ true) }
    ensures result_value { result ≡ (listed_from rules.now bs number years out.old).answer }
    ensures out_after { out.new ≡ (listed_from rules.now bs number years out.old).buffer }
{
    let day = day_numbered(bs, number);
    let mut none = [0u16; 1];
    let n = lists::put_day_list(rules, day, years, &mut none, 0);
    if out.len() < n * 2 {
        return Err(Refusal::NoRoom);
    }
    Ok(lists::put_day_list(rules, day, years, out, 0))
}

// The list of a day of an accepted table.
#[tactic(auto, using(crate::proofs::Numbered::drawn_list))]
fn list_day(
    table: Table,
    rows: &[u16],
    rules: &[u16],
    bs: BsDate,
    number: u32,
    out: &mut [u16],
) -> Answer<usize>
    requires { (accepted table rows.now ≡ true) × (accepted_rules rules.now ≡ true) × (numbered number ≡ true) }
    ensures result_value { result ≡ (listed_on table rows.now rules.now number out.old bs).answer }
    ensures out_after { out.new ≡ (listed_on table rows.now rules.now number out.old bs).buffer }
{
    let years = years::years_for(table, rows, rules, bs.year, bs.month);
    list_from(rules, bs, number, years, out)
}

// The list of a day by its number, if the accepted table has it.
#[tactic(auto, unfolding(rules::specs::Festivals::listed))]
fn list_placed(
    table: Table,
    rows: &[u16],
    rules: &[u16],
    number: u32,
    out: &mut [u16],
) -> Answer<usize>
    requires { (accepted table rows.now ≡ true) × (accepted_rules rules.now ≡ true) × (numbered number ≡ true) }
    ensures result_value { result ≡ (listed_at table rows.now rules.now number out.old).answer }
    ensures out_after { out.new ≡ (listed_at table rows.now rules.now number out.old).buffer }
{
    let bs = conversion::place(table, rows, number)?;
    list_day(table, rows, rules, bs, number, out)
}

// The festivals of a BS date, as name, holiday. Refusals 1, 2, 4, 5, 6, 9.
#[tactic(auto, unfolding(rules::specs::Festivals::listed), using(crate::proofs::Numbered::asked_bs))]
pub fn festivals_on(
    table: Table,
    rows: &[u16],
    rules: &[u16],
    year: u16,
    month: u16,
    day: u16,
    out: &mut [u16],
) -> Answer<usize>
    ensures result_value { result ≡ (on_bs table rows.now rules.now year month day out.old).answer }
    ensures out_after { out.new ≡ (on_bs table rows.now rules.now year month day out.old).buffer }
{
    rules::accept(table, rows, rules)?;
    let bs = BsDate { year, month, day };
    let number = conversion::day_of(table, rows, bs)?;
    list_day(table, rows, rules, bs, number, out)
}

// The festivals of a Gregorian date, as name, holiday. Refusals 1, 2, 3, 7, 9; 7 tells how far outside the table the date lies.
pub fn festivals_on_ad(
    table: Table,
    rows: &[u16],
    rules: &[u16],
    year: u16,
    month: u16,
    day: u16,
    out: &mut [u16],
) -> Answer<usize>
    ensures result_value { result ≡ (on_ad table rows.now rules.now year month day out.old).answer }
    ensures out_after { out.new ≡ (on_ad table rows.now rules.now year month day out.old).buffer }
{
    rules::accept(table, rows, rules)?;
    let number = Date { year, month, day }.day_number()?;
    list_placed(table, rows, rules, number, out)
}
