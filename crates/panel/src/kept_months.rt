// A month from a kept state in an array of the caller's.
ghost use Rattle.conversion.specs.Flat.{date};
ghost use Rattle.kept.specs.Operations.{ask_month};
ghost use Rattle.panel.specs.Keeping.{Keeping, kept_month};

use crate::keeping::{is_short, keep};
use crate::months::give_grid;
use gregorian::Date;
use paper::Refusal;

// A month in cells of twelve numbers, in weeks from Sunday, and its days' festivals as name, holiday, each at the front of a lent buffer; its days, its first
// and last Gregorian date, and how many cells and festivals: 9 (the array), 13, 3 (today), 4, 5, 9.
#[unsafe(no_mangle)]
pub extern "C" fn panel_kept_month_grid(
    state: &mut [u16],
    today_year: u16,
    today_month: u16,
    today_day: u16,
    year: u16,
    month: u16,
    cells: &mut [u16],
    festivals: &mut [u16],
    days: &mut u16,
    from_year: &mut u16,
    from_month: &mut u16,
    from_day: &mut u16,
    to_year: &mut u16,
    to_month: &mut u16,
    to_day: &mut u16,
    cell_count: &mut usize,
    festival_count: &mut usize,
) -> u16
    ensures { Keeping state.old result (
      (
        days.old,
        (from_year.old, from_month.old, from_day.old),
        (to_year.old, to_month.old, to_day.old),
        cell_count.old,
        festival_count.old,
      ),
      ((cells.old, festivals.old), state.old),
    ) (
      (
        days.new,
        (from_year.new, from_month.new, from_day.new),
        (to_year.new, to_month.new, to_day.new),
        cell_count.new,
        festival_count.new,
      ),
      ((cells.new, festivals.new), state.new),
    ) (λ σ. kept_month state.old
        (ask_month σ (date today_year today_month today_day) year month cells.old festivals.old) (
          days.old,
          (from_year.old, from_month.old, from_day.old),
          (to_year.old, to_month.old, to_day.old),
          cell_count.old,
          festival_count.old,
        )) }
{
    if is_short(state) {
        return Refusal::NoRoom.number();
    }
    let today = Date {
        year: today_year,
        month: today_month,
        day: today_day,
    };
    let asked = kept::months::ask_month(
        shelf::kept_of(state),
        today,
        year,
        month,
        cells,
        festivals,
    );
    keep(&asked, state);
    give_grid(
        asked.answer,
        days,
        from_year,
        from_month,
        from_day,
        to_year,
        to_month,
        to_day,
        cell_count,
        festival_count,
    )
}
