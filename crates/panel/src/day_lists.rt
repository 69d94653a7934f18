// Festival rules, and a day's festivals from a lent year table and lent rules.
ghost use Rattle.std.specs.Prelude.{◌≡◌};
ghost use Rattle.paper.specs.declared.Refusal.TheVariants.{BadRules};
ghost use Rattle.rules.specs.Rules.{accepted_rules};
ghost use Rattle.festivals.specs.Answers.{on_bs, on_ad};
ghost use Rattle.panel.specs.Boundary.{code, days_in, gives_told, gives_list, gives_list_ad, table, accepting};

use crate::{acceptance, give, give_days, table_of};
use paper::{Answer, Refusal};

// The number of festivals where it is asked for, or how far outside the table the date lies.
pub fn give_count_or_days(
    answer: Answer<usize>,
    count: &mut usize,
    days_before: &mut u32,
    days_after: &mut u32,
) -> u16
    ensures { (result, (count.new, (days_before.new, days_after.new)))
        ≡ gives_told days_in answer (λ x. x) (count.old, (days_before.old, days_after.old)) }
{
    match answer {
        Ok(n) => {
            *count = n;
            0
        }
        Err(k) => give_days(k, days_before, days_after),
    }
}

// Whether lent rules are accepted: 2.
#[unsafe(no_mangle)]
pub extern "C" fn panel_check_rules(rules: &[u16]) -> u16
    ensures { result ≡ code (accepting (accepted_rules rules.now) BadRules) }
{
    acceptance(rules::accepts_rules(rules), Refusal::BadRules)
}

// The festivals of a BS date, as name, holiday, at the front of a lent buffer, and how many: 1, 2, 4, 5, 6, 9.
#[unsafe(no_mangle)]
pub extern "C" fn panel_festivals_on(
    first_year: u16,
    first_ad_year: u16,
    first_ad_month: u16,
    first_ad_day: u16,
    rows: &[u16],
    rules: &[u16],
    year: u16,
    month: u16,
    day: u16,
    festivals: &mut [u16],
    count: &mut usize,
) -> u16
    ensures { ((result, count.new), festivals.new)
        ≡ gives_list (on_bs (table first_year first_ad_year first_ad_month first_ad_day)
        rows.now rules.now year month day festivals.old) count.old }
{
    let table = table_of(first_year, first_ad_year, first_ad_month, first_ad_day);
    give(
        festivals::festivals_on(table, rows, rules, year, month, day, festivals),
        count,
    )
}

// The festivals of a Gregorian date, as name, holiday, at the front of a lent buffer, and how many; or how far outside the table the date lies: 1, 2, 3, 7, 9.
#[unsafe(no_mangle)]
pub extern "C" fn panel_festivals_on_ad(
    first_year: u16,
    first_ad_year: u16,
    first_ad_month: u16,
    first_ad_day: u16,
    rows: &[u16],
    rules: &[u16],
    year: u16,
    month: u16,
    day: u16,
    festivals: &mut [u16],
    count: &mut usize,
    days_before: &mut u32,
    days_after: &mut u32,
) -> u16
    ensures { ((result, (count.new, (days_before.new, days_after.new))), festivals.new)
        ≡ gives_list_ad (on_ad (table first_year first_ad_year first_ad_month first_ad_day)
        rows.now rules.now year month day festivals.old)
        (count.old, (days_before.old, days_after.old)) }
{
    let table = table_of(first_year, first_ad_year, first_ad_month, first_ad_day);
    give_count_or_days(
        festivals::festivals_on_ad(table, rows, rules, year, month, day, festivals),
        count,
        days_before,
        days_after,
    )
}
