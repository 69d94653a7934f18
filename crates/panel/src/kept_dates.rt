// Dates by the table of a kept state in an array of the caller's. The rows are read where they stand, and the array stays as it is.
ghost use Rattle.kept.specs.Converting.{ask_to_ad, ask_from_ad};
ghost use Rattle.panel.specs.Boundary.{gives, days_in, gives_told, numbers, bs_numbers};
ghost use Rattle.panel.specs.Keeping.{Keeping};

use crate::conversions::give_bs;
use crate::dates::give_date;
use crate::keeping::is_short;
use conversion::BsDate;
use kept::converting;
use paper::Refusal;

// The Gregorian date of a BS date: 9 (the array), 13, 4, 5, 6.
#[unsafe(no_mangle)]
pub extern "C" fn panel_kept_bs_to_ad(
    state: &[u16],
    year: u16,
    month: u16,
    day: u16,
    ad_year: &mut u16,
    ad_month: &mut u16,
    ad_day: &mut u16,
) -> u16
    ensures { Keeping state.now result (ad_year.old, ad_month.old, ad_day.old)
        (ad_year.new, ad_month.new, ad_day.new)
        (λ σ. gives (ask_to_ad σ year month day) numbers (ad_year.old, ad_month.old, ad_day.old)) }
{
    if is_short(state) {
        return Refusal::NoRoom.number();
    }
    give_date(
        converting::to_ad(
            shelf::table_of(state),
            shelf::rows_of(state),
            BsDate { year, month, day },
        ),
        ad_year,
        ad_month,
        ad_day,
    )
}

// The BS date of a Gregorian date, or how far outside the table it lies: 9 (the array), 13, 3, 7.
#[unsafe(no_mangle)]
pub extern "C" fn panel_kept_ad_to_bs(
    state: &[u16],
    year: u16,
    month: u16,
    day: u16,
    bs_year: &mut u16,
    bs_month: &mut u16,
    bs_day: &mut u16,
    days_before: &mut u32,
    days_after: &mut u32,
) -> u16
    ensures { Keeping state.now result
        ((bs_year.old, bs_month.old, bs_day.old), (days_before.old, days_after.old))
        ((bs_year.new, bs_month.new, bs_day.new), (days_before.new, days_after.new))
        (λ σ. gives_told days_in (ask_from_ad σ year month day) bs_numbers
        ((bs_year.old, bs_month.old, bs_day.old), (days_before.old, days_after.old))) }
{
    if is_short(state) {
        return Refusal::NoRoom.number();
    }
    give_bs(
        converting::from_ad(
            shelf::table_of(state),
            shelf::rows_of(state),
            year,
            month,
            day,
        ),
        bs_year,
        bs_month,
        bs_day,
        days_before,
        days_after,
    )
}
