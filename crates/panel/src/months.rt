// Months: stepping from one to another, and the cells of one.
ghost use Rattle.std.specs.Prelude.{◌≡◌};
ghost use Rattle.grid.specs.Step.{step_month};
ghost use Rattle.grid.specs.Kathmandu.{month_shown};
ghost use Rattle.conversion.specs.Flat.{date};
ghost use Rattle.panel.specs.Boundary.{gives, month_of, month_numbers, gives_month, table, lent};

use crate::table_of;
use gregorian::Date;
use grid::{BsMonth, Month};
use paper::Answer;

// A month's two numbers where they are asked for.
fn give_month(answer: Answer<BsMonth>, year: &mut u16, month: &mut u8) -> u16
    ensures { (result, (year.new, month.new))
        ≡ gives answer month_of (year.old, month.old) }
{
    match answer {
        Ok(stepped) => {
            *year = stepped.year;
            *month = stepped.month;
            0
        }
        Err(k) => k.number(),
    }
}

// A month's days, its first and last Gregorian date and its counts where they are asked for.
pub fn give_grid(
    answer: Answer<Month>,
    days: &mut u16,
    from_year: &mut u16,
    from_month: &mut u16,
    from_day: &mut u16,
    to_year: &mut u16,
    to_month: &mut u16,
    to_day: &mut u16,
    cell_count: &mut usize,
    festival_count: &mut usize,
) -> u16
    ensures { (
      result,
      (
        days.new,
        (from_year.new, from_month.new, from_day.new),
        (to_year.new, to_month.new, to_day.new),
        cell_count.new,
        festival_count.new,
      ),
    )
        ≡ gives answer month_numbers (
          days.old,
          (from_year.old, from_month.old, from_day.old),
          (to_year.old, to_month.old, to_day.old),
          cell_count.old,
          festival_count.old,
        ) }
{
    match answer {
        Ok(shown) => {
            *days = shown.days;
            *from_year = shown.first.year;
            *from_month = shown.first.month;
            *from_day = shown.first.day;
            *to_year = shown.last.year;
            *to_month = shown.last.month;
            *to_day = shown.last.day;
            *cell_count = shown.cells;
            *festival_count = shown.festivals;
            0
        }
        Err(k) => k.number(),
    }
}

// A month stepped by a number of months: 1, 10.
#[unsafe(no_mangle)]
pub extern "C" fn panel_step_month(
    first_year: u16,
    first_ad_year: u16,
    first_ad_month: u16,
    first_ad_day: u16,
    rows: &[u16],
    year: u16,
    month: u8,
    step: i32,
    to_year: &mut u16,
    to_month: &mut u8,
) -> u16
    ensures { (result, (to_year.new, to_month.new))
        ≡ gives (step_month (lent first_year first_ad_year first_ad_month first_ad_day rows.now) year month step) month_of
        (to_year.old, to_month.old) }
{
    let table = table_of(first_year, first_ad_year, first_ad_month, first_ad_day);
    give_month(
        grid::step_month(table, rows, year, month, step),
        to_year,
        to_month,
    )
}

// A month in cells of twelve numbers, in weeks from Sunday, and its days' festivals as name, holiday, each at the front of a lent buffer; its days, its first
// and last Gregorian date, and how many cells and festivals: 1, 2, 3 (today), 4, 5, 9.
#[unsafe(no_mangle)]
pub extern "C" fn panel_month_grid(
    first_year: u16,
    first_ad_year: u16,
    first_ad_month: u16,
    first_ad_day: u16,
    rows: &[u16],
    rules: &[u16],
    today_year: u16,
    today_month: u16,
    today_day: u16,
    year: u16,
    month: u16,
    cells: &mut [u16],
    festivals: &mut [u16],
    days: &mut u16,
    from_year: &mut u16,
    from_month: &mut u16,
    from_day: &mut u16,
    to_year: &mut u16,
    to_month: &mut u16,
    to_day: &mut u16,
    cell_count: &mut usize,
    festival_count: &mut usize,
) -> u16
    ensures { (
      (
        result,
        (
          days.new,
          (from_year.new, from_month.new, from_day.new),
          (to_year.new, to_month.new, to_day.new),
          cell_count.new,
          festival_count.new,
        ),
      ),
      (cells.new, festivals.new),
    )
        ≡ gives_month (month_shown (table first_year first_ad_year first_ad_month first_ad_day) rows.now rules.now
        (date today_year today_month today_day) year month cells.old festivals.old) (
          days.old,
          (from_year.old, from_month.old, from_day.old),
          (to_year.old, to_month.old, to_day.old),
          cell_count.old,
          festival_count.old,
        ) }
{
    let table = table_of(first_year, first_ad_year, first_ad_month, first_ad_day);
    let today = Date {
        year: today_year,
        month: today_month,
        day: today_day,
    };
    give_grid(
        grid::month_grid(table, rows, rules, today, year, month, cells, festivals),
        days,
        from_year,
        from_month,
        from_day,
        to_year,
        to_month,
        to_day,
        cell_count,
        festival_count,
    )
}
