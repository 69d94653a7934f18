// A day's festivals from a kept state in an array of the caller's.
ghost use Rattle.kept.specs.Operations.{ask_bs, ask_ad};
ghost use Rattle.panel.specs.Keeping.{Keeping, kept_list, kept_list_ad};

use crate::day_lists::give_count_or_days;
use crate::give;
use crate::keeping::{is_short, keep};
use kept::asking;
use paper::Refusal;

// The festivals of a BS date, as name, holiday, at the front of a lent buffer, and how many: 9 (the array), 13, 4, 5, 6, 9.
#[unsafe(no_mangle)]
pub extern "C" fn panel_kept_festivals_on(
    state: &mut [u16],
    year: u16,
    month: u16,
    day: u16,
    festivals: &mut [u16],
    count: &mut usize,
) -> u16
    ensures { Keeping state.old result (count.old, (festivals.old, state.old))
        (count.new, (festivals.new, state.new))
        (λ σ. kept_list state.old (ask_bs σ year month day festivals.old) count.old) }
{
    if is_short(state) {
        return Refusal::NoRoom.number();
    }
    let asked = asking::ask_bs(shelf::kept_of(state), year, month, day, festivals);
    keep(&asked, state);
    give(asked.answer, count)
}

// The festivals of a Gregorian date, as name, holiday, at the front of a lent buffer, and how many; or how far outside the table the date lies:
// 9 (the array), 13, 3, 7, 9.
#[unsafe(no_mangle)]
pub extern "C" fn panel_kept_festivals_on_ad(
    state: &mut [u16],
    year: u16,
    month: u16,
    day: u16,
    festivals: &mut [u16],
    count: &mut usize,
    days_before: &mut u32,
    days_after: &mut u32,
) -> u16
    ensures { Keeping state.old result
        ((count.old, (days_before.old, days_after.old)), (festivals.old, state.old))
        ((count.new, (days_before.new, days_after.new)), (festivals.new, state.new))
        (λ σ. kept_list_ad state.old (ask_ad σ year month day festivals.old)
        (count.old, (days_before.old, days_after.old))) }
{
    if is_short(state) {
        return Refusal::NoRoom.number();
    }
    let asked = asking::ask_ad(shelf::kept_of(state), year, month, day, festivals);
    keep(&asked, state);
    give_count_or_days(asked.answer, count, days_before, days_after)
}
