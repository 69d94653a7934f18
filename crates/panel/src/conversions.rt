// Bikram Sambat dates over a lent year table: its first year, the Gregorian date of its first day, and rows of thirteen numbers.
ghost use Rattle.std.specs.Prelude.{◌≡◌};
ghost use Rattle.paper.specs.declared.Refusal.TheVariants.{BadTable};
ghost use Rattle.conversion.specs.Flat.{accepted};
ghost use Rattle.conversion.specs.Calendar.{month_len, valid_bs, to_ad, from_ad};
ghost use Rattle.panel.specs.Boundary.{code, gives, days_in, gives_told, numbers, bs_numbers, lent, table, accepting};

use crate::dates::give_date;
use crate::{acceptance, code, give, give_days, table_of};
use conversion::BsDate;
use paper::{Answer, Refusal};

// A BS date's three numbers where they are asked for, or how far outside the table the date lies.
pub fn give_bs(
    answer: Answer<BsDate>,
    year: &mut u16,
    month: &mut u16,
    day: &mut u16,
    days_before: &mut u32,
    days_after: &mut u32,
) -> u16
    ensures { (result, ((year.new, month.new, day.new), (days_before.new, days_after.new)))
        ≡ gives_told days_in answer bs_numbers
        ((year.old, month.old, day.old), (days_before.old, days_after.old)) }
{
    match answer {
        Ok(date) => {
            *year = date.year;
            *month = date.month;
            *day = date.day;
            0
        }
        Err(k) => give_days(k, days_before, days_after),
    }
}

// Whether a lent year table is accepted: 1.
#[unsafe(no_mangle)]
pub extern "C" fn panel_check_table(
    first_year: u16,
    first_ad_year: u16,
    first_ad_month: u16,
    first_ad_day: u16,
    rows: &[u16],
) -> u16
    ensures { result ≡ code (accepting (accepted (table first_year first_ad_year first_ad_month first_ad_day) rows.now) BadTable) }
{
    let table = table_of(first_year, first_ad_year, first_ad_month, first_ad_day);
    acceptance(conversion::accepts(table, rows), Refusal::BadTable)
}

// The length of a month: 1, 4, 5.
#[unsafe(no_mangle)]
pub extern "C" fn panel_bs_month_len(
    first_year: u16,
    first_ad_year: u16,
    first_ad_month: u16,
    first_ad_day: u16,
    rows: &[u16],
    year: u16,
    month: u16,
    days: &mut u16,
) -> u16
    ensures { (result, days.new)
        ≡ gives (month_len (lent first_year first_ad_year first_ad_month first_ad_day rows.now) year month) (λ x. x)
        days.old }
{
    let table = table_of(first_year, first_ad_year, first_ad_month, first_ad_day);
    give(conversion::bs_month_len(table, rows, year, month), days)
}

// Whether there is such a BS date: 1, 4, 5, 6.
#[unsafe(no_mangle)]
pub extern "C" fn panel_validate_bs_date(
    first_year: u16,
    first_ad_year: u16,
    first_ad_month: u16,
    first_ad_day: u16,
    rows: &[u16],
    year: u16,
    month: u16,
    day: u16,
) -> u16
    ensures { result ≡ code (valid_bs (lent first_year first_ad_year first_ad_month first_ad_day rows.now) year month day) }
{
    let table = table_of(first_year, first_ad_year, first_ad_month, first_ad_day);
    code(conversion::validate_bs_date(table, rows, BsDate { year, month, day }))
}

// The Gregorian date of a BS date: 1, 4, 5, 6.
#[unsafe(no_mangle)]
pub extern "C" fn panel_bs_to_ad(
    first_year: u16,
    first_ad_year: u16,
    first_ad_month: u16,
    first_ad_day: u16,
    rows: &[u16],
    year: u16,
    month: u16,
    day: u16,
    ad_year: &mut u16,
    ad_month: &mut u16,
    ad_day: &mut u16,
) -> u16
    ensures { (result, (ad_year.new, ad_month.new, ad_day.new))
        ≡ gives (to_ad (lent first_year first_ad_year first_ad_month first_ad_day rows.now) year month day) numbers
        (ad_year.old, ad_month.old, ad_day.old) }
{
    let table = table_of(first_year, first_ad_year, first_ad_month, first_ad_day);
    give_date(
        conversion::bs_to_ad(table, rows, BsDate { year, month, day }),
        ad_year,
        ad_month,
        ad_day,
    )
}

// The BS date of a Gregorian date, or how far outside the table it lies: 1, 3, 7.
#[unsafe(no_mangle)]
pub extern "C" fn panel_ad_to_bs(
    first_year: u16,
    first_ad_year: u16,
    first_ad_month: u16,
    first_ad_day: u16,
    rows: &[u16],
    year: u16,
    month: u16,
    day: u16,
    bs_year: &mut u16,
    bs_month: &mut u16,
    bs_day: &mut u16,
    days_before: &mut u32,
    days_after: &mut u32,
) -> u16
    ensures { (result, ((bs_year.new, bs_month.new, bs_day.new), (days_before.new, days_after.new)))
        ≡ gives_told days_in (from_ad (lent first_year first_ad_year first_ad_month first_ad_day rows.now) year month day) bs_numbers
        ((bs_year.old, bs_month.old, bs_day.old), (days_before.old, days_after.old)) }
{
    let table = table_of(first_year, first_ad_year, first_ad_month, first_ad_day);
    give_bs(
        conversion::ad_to_bs(table, rows, year, month, day),
        bs_year,
        bs_month,
        bs_day,
        days_before,
        days_after,
    )
}
