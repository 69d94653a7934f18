// A month stepped by a number of months.
ghost use Rattle.std.specs.Prelude.{◌≡◌, ◌+◌, ◌<◌};
ghost use Rattle.grid.specs.Step.{absolute, month_at};

use crate::BsMonth;
use paper::{Answer, Refusal};

// The months from the beginning of year 0 to a month, and the step.
pub fn absolute_month(year: u16, month: u8, step: i32) -> i64
    ensures { result ≡ absolute year month step }
{
    year as i64 * 12 + (month as i64 - 1) + step as i64
}

// The month that so many months lead to, if its year is one of the years from first on.
pub fn month_at(first: u16, years: u16, absolute: i64) -> Answer<BsMonth>
    requires { first + years < 65536 }
    ensures { result ≡ month_at first years absolute }
{
    if absolute < 0 {
        return Err(Refusal::OffTable);
    }
    let months = absolute as u64;
    let year = months / 12;
    if year < first as u64 {
        return Err(Refusal::OffTable);
    }
    if (first + years) as u64 <= year {
        return Err(Refusal::OffTable);
    }
    Ok(BsMonth {
        year: year as u16,
        month: (months % 12) as u8 + 1,
    })
}
