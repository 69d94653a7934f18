// The engine for C: numbers, lent slices and lent places alone. Each function answers 0 or the number of a refusal (docs/RULES.md); a refusal changes
// no lent place, but that 7 tells its days and 12 its line. Each promises what the engine's function of that name promises, by the same definition.
// The calls panel_kept_.. are lent a kept state as an array (crate shelf). Of an array that is long enough and that they did not make they promise
// alone that they end and stay inside it.
#![tactic(auto)]

ghost use Rattle.std.specs.Prelude.{◌≡◌};
ghost use Rattle.panel.specs.Boundary.{code, gives, days_in, number_and, accepting, table};

use conversion::Table;
use paper::{Answer, Refusal, Told};

mod almanac;
mod conversions;
mod dates;
mod day_lists;
mod heavens;
mod holidays;
mod keeping;
mod kept_dates;
mod kept_lists;
mod kept_months;
mod months;
mod rule_files;
mod trigonometry;

// The year table of its four numbers: its first year, and the Gregorian date of its first day.
fn table_of(first_year: u16, year: u16, month: u16, day: u16) -> Table
    ensures { result ≡ table first_year year month day }
{
    Table {
        first_year,
        year,
        month,
        day,
    }
}

// 0 for an answer, or the number of the refusal.
fn code<T: Copy>(answer: Answer<T>) -> u16
    ensures { result ≡ code answer }
{
    match answer {
        Ok(_) => 0,
        Err(k) => k.number(),
    }
}

// 0 for what is accepted, or the number of the refusal.
fn acceptance(good: bool, refusal: Refusal) -> u16
    ensures { result ≡ code (accepting good refusal) }
{
    if good { 0 } else { refusal.number() }
}

// What is answered where it is asked for. An answer of several parts has a function of its own: C lends a place for each part.
fn give<T: Copy>(answer: Answer<T>, place: &mut T) -> u16
    ensures { (result, place.new) ≡ gives answer (λ x. x) place.old }
{
    match answer {
        Ok(x) => {
            *place = x;
            0
        }
        Err(k) => k.number(),
    }
}

// The number of a refusal, and with 7 how many days before the first day of the table or after its last, 0 on the other side.
fn give_days(refusal: Refusal, days_before: &mut u32, days_after: &mut u32) -> u16
    ensures { (result, (days_before.new, days_after.new))
        ≡ number_and days_in refusal (days_before.old, days_after.old) }
{
    match refusal.told() {
        Some(Told::Before(k)) => {
            *days_before = k;
            *days_after = 0;
        }
        Some(Told::After(k)) => {
            *days_before = 0;
            *days_after = k;
        }
        _ => (),
    }
    refusal.number()
}
