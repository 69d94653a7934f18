// The plan of a month of an accepted table: its first day, and the resolved years that its lists come from.
ghost use Rattle.std.specs.Prelude.{◌≡◌, true, ◌-◌, Ok};
ghost use Rattle.conversion.specs.Calendar.{day_at, month_len};
ghost use Rattle.conversion.specs.Claims.{YearIn, MonthIn};
ghost use Rattle.conversion.specs.Flat.{accepted, flat};
ghost use Rattle.grid.specs.Inner.{plan_for};

use crate::page::Plan;
use conversion::{BsDate, Table};
use gregorian::Date;
use rules::lists::Years;

// The number of a month's first day.
#[tactic(auto, using(crate::proofs::Plans::has_first))]
fn first_of(table: Table, rows: &[u16], first: BsDate) -> u32
    requires rows_value { accepted table rows.now ≡ true }
    requires year_in { YearIn (flat table rows.now) first.year × MonthIn first.month × (first.day ≡ 1) }
    ensures { result ≡ day_at (flat table rows.now) (first.year - table.first_year) (first.month - 1) 0 }
{
    conversion::day_of(table, rows, first).unwrap()
}

// The plan of a month of so many days, whose lists come from these two resolved years.
#[tactic(auto, using(crate::proofs::Plans::in_year))]
pub fn plan_of(
    table: Table,
    rows: &[u16],
    today: Date,
    year: u16,
    month: u16,
    days: u16,
    years: Years,
) -> Plan
    requires rows_value { accepted table rows.now ≡ true }
    requires days_value { Ok days ≡ month_len (flat table rows.now) year month }
    ensures { result ≡ plan_for (flat table rows.now) today year month days years }
{
    let bs = BsDate {
        year,
        month,
        day: 1,
    };
    let first = first_of(table, rows, bs);
    Plan {
        today,
        year,
        month,
        first,
        days,
        years,
    }
}
