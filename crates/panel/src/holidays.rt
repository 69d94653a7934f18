// Whether a BS date is a holiday, from a lent year table and lent rules.
ghost use Rattle.std.specs.Prelude.{◌≡◌};
ghost use Rattle.grid.specs.Cells.{one};
ghost use Rattle.holiday.specs.Holiday.{holiday_on};
ghost use Rattle.panel.specs.Boundary.{gives, table};

use crate::table_of;
use grid::cells::mark;
use paper::Answer;

// 1 for yes or 0 for no where it is asked for.
fn give_mark(answer: Answer<bool>, holiday: &mut u16) -> u16
    ensures { (result, holiday.new) ≡ gives answer one holiday.old }
{
    match answer {
        Ok(yes) => {
            *holiday = mark(yes);
            0
        }
        Err(k) => k.number(),
    }
}

// Whether a BS date is a holiday, 1 for yes and 0 for no: 1, 2, 4, 5, 6.
#[unsafe(no_mangle)]
pub extern "C" fn panel_is_holiday(
    first_year: u16,
    first_ad_year: u16,
    first_ad_month: u16,
    first_ad_day: u16,
    rows: &[u16],
    rules: &[u16],
    year: u16,
    month: u16,
    day: u16,
    holiday: &mut u16,
) -> u16
    ensures { (result, holiday.new)
        ≡ gives (holiday_on (table first_year first_ad_year first_ad_month first_ad_day)
        rows.now rules.now year month day) one holiday.old }
{
    let table = table_of(first_year, first_ad_year, first_ad_month, first_ad_day);
    give_mark(
        holiday::is_holiday(table, rows, rules, year, month, day),
        holiday,
    )
}
