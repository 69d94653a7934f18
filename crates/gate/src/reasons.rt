// Why a date is a holiday: it is a Saturday, or by the first holiday of its list.
ghost use Rattle.std.specs.Prelude.{◌≡◌, true, ◌*◌, ◌≤◌, length};
ghost use Rattle.gregorian.specs.Answers.{numbered};
ghost use Rattle.conversion.specs.Flat.{accepted, flat};
ghost use Rattle.rules.specs.Rules.{rules_of, accepted_rules};
ghost use Rattle.festivals.specs.Kathmandu.{day_list_of};
ghost use Rattle.gate.specs.Reasons.{first_holiday, reason_of, reason_on, reason_asked};
ghost use Rattle.gate.specs.Inner.{marked_from};

use commands::words::Asked;
use conversion::{BsDate, Table};
use festivals::day_numbered;
use festivals::years::years_for;
use gregorian::Date;
use paper::Answer;
use rules::lists::put_day_list;

// Why a day is a holiday: that it is a Saturday, or a festival by its name.
#[derive(Clone, Copy)]
pub enum Reason {
    Saturday,
    Festival(u16),
}

// The first of so many pairs that is a holiday, if one is.
fn first_marked(list: &[u16], count: usize) -> Option<Reason>
    requires { count * 2 ≤ length list.now }
    ensures { result ≡ marked_from list.now 0 count }
{
    for i in 0..count {
        if list[i * 2 + 1] == 1 {
            return Some(Reason::Festival(list[i * 2]));
        }
    }
    None
}

// The reason of a day of an accepted table by its list, if there is one.
fn by_list(table: Table, rows: &[u16], rules: &[u16], bs: BsDate, number: u32) -> Option<Reason>
    requires { (accepted table rows.now ≡ true) × (accepted_rules rules.now ≡ true) × (numbered number ≡ true) }
    ensures { result ≡ first_holiday (day_list_of (flat table rows.now) (rules_of rules.now) bs number) }
{
    let day = day_numbered(bs, number);
    let years = years_for(table, rows, rules, bs.year, bs.month);
    let mut list = [0u16; 768];
    let count = put_day_list(rules, day, years, &mut list, 0);
    first_marked(&list, count)
}

// The reason of a day of an accepted table.
fn reason_of(table: Table, rows: &[u16], rules: &[u16], bs: BsDate, number: u32) -> Option<Reason>
    requires { (accepted table rows.now ≡ true) × (accepted_rules rules.now ≡ true) × (numbered number ≡ true) }
    ensures { result ≡ reason_of number (day_list_of (flat table rows.now) (rules_of rules.now) bs number) }
{
    if gregorian::weekday_of(number) == 6 {
        return Some(Reason::Saturday);
    }
    by_list(table, rows, rules, bs, number)
}

// The reason of a BS date. Refusals 1, 2, 4, 5, 6.
fn reason_on(
    table: Table,
    rows: &[u16],
    rules: &[u16],
    year: u16,
    month: u16,
    day: u16,
) -> Answer<Option<Reason>>
    ensures { result ≡ reason_on table rows.now rules.now year month day }
{
    rules::accept(table, rows, rules)?;
    let bs = BsDate { year, month, day };
    let number = conversion::day_of(table, rows, bs)?;
    Ok(reason_of(table, rows, rules, bs, number))
}

// The reason of a Gregorian date by its BS date. Refusals 1, 3, 7, 2.
fn reason_on_ad(table: Table, rows: &[u16], rules: &[u16], date: Date) -> Answer<Option<Reason>>
    ensures { result ≡ reason_asked table rows.now rules.now (Asked.Date date) }
{
    let bs = conversion::ad_to_bs(table, rows, date.year, date.month, date.day)?;
    reason_on(table, rows, rules, bs.year, bs.month, bs.day)
}

// The reason of what is asked. A month without a day is asked as its day 0, which no month has.
pub fn reason_asked(
    table: Table,
    rows: &[u16],
    rules: &[u16],
    asked: Asked,
) -> Answer<Option<Reason>>
    ensures { result ≡ reason_asked table rows.now rules.now asked }
{
    match asked {
        Asked::Month(y, m) => reason_on(table, rows, rules, y, m, 0),
        Asked::Day(y, m, d) => reason_on(table, rows, rules, y, m, d),
        Asked::Date(date) => reason_on_ad(table, rows, rules, date),
    }
}
